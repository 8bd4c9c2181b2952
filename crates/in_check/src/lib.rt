//! The one way to a program: its text is checked by all passes, one after another. An accepted program is kept, with the steps that build its
//! rules and its net.
//!
//! `checking` calls the passes in their order, rule by rule if a pass is about rules, each pass in a small function that then calls the others;
//! `certifying` has the last ones, on the open net of each rule and of the net. `Checked` keeps their results. For the diagnosis of a refused
//! text `Findings` keeps what was found until then, and `misfits` looks up the two ends of a wire whose types don't fit.
//!
//! `plain` is the slow reducer over plain nets: it borrows a `Checked`, finds the rule of an active pair with `rule_of` and leaves the
//! work to `interact`. Its invariant is that its program reaches its net.
#![tactic(auto)]

mod certifying;
mod checked;
mod checking;
mod findings;
pub mod laws;
mod misfits;
mod plain;

pub use certifying::{Evidence, StuckPart};
pub use checked::{Certificate, Checked, Item, ProgramCounts};
pub use checking::{check, check_finding, refusal_of};
pub use findings::Findings;
pub use misfits::{Misfit, WireEnd};
pub use plain::Plain;
