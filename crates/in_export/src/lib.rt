//! An accepted program as data: one JSON object on one line, with the program's tables, its rules, its net, and the steps that build
//! them. `docs/use/EXPORT.md` has the format for readers, `specs/Programs.antt` its definition.
//!
//! It uses the calls of `in_check`. `json` writes numbers, names and
//! commas; `symbols`, `nets` and `steps` write a table, a net and a certificate, `programs` the line. Each function adds to a list of
//! bytes the text that its contract names, and each loop is one lemma (`Arrays`).
#![tactic(auto)]

mod exporting;
mod json;
pub mod laws;
mod nets;
mod programs;
mod steps;
mod symbols;

pub use exporting::export;
