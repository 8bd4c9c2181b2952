//! The limits of a run: its workers, its interactions and its cells. This crate knows no machine, so the words of the command line can name limits
//! without one.
#![tactic(auto)]

pub mod laws;
mod limits;

pub use limits::{LEAST_CELLS, Limits, MOST_CELLS, MOST_INTERACTIONS, MOST_WORKERS};
