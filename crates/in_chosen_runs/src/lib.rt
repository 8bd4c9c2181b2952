//! A run whose first interactions a caller chooses: those of the pairs of these numbers in the queue, one after another, and then of the first pair
//! again and again. So a caller who keeps only the numbers can go on, stop, and choose the next pair.
//!
//! `choosing` does the chosen interactions, and `running` has the call, over a machine of `in_machine`. By `laws` it has one end. The static
//! library gives it to C.
#![tactic(auto)]

mod choosing;
pub mod laws;
mod running;

pub use running::{Chosen, run_chosen};
