//! The printed text of a machine's net.
//!
//! A machine is seen only through its accessors. `terms` writes the term at an end, by a loop over a stack of the agents that have been begun;
//! `numbers` keeps the wires that were met in an `IndexSet`; `sheet` is the text so far; `lines` writes the lines, and `writing` sends the whole
//! text to the writer. That the loop ends, and that its stack is never higher than the net has agents, follows from the promises of `check`: the
//! agents above a point differ.
#![tactic(auto)]

pub mod laws;
mod lines;
mod numbers;
mod sheet;
mod terms;
mod writing;

pub use writing::{PrintFault, write_all, write_net};
