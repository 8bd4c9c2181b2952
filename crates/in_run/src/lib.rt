//! Runs of a machine within limits. The machine is that of `in_machine`, re-exported here.
//!
//! `running` is the loop, with the three stops tested in their order. In a long run of several workers `advancing` tests whether a phase should pay,
//! in which each worker reduces a part of the net by itself (`pace`); otherwise it does some steps. Where the first pair has no room, several workers do
//! the pairs that have some (`going_on`). No run does a round. A watcher (`watching`) sees
//! the progress of a run.
#![tactic(auto)]

mod advancing;
mod going_on;
mod in_turn;
pub mod laws;
mod next;
mod pace;
mod running;
mod stops;
mod watching;

pub use in_claims::{Gate, NoGate};
pub use in_limits::{Limits, MOST_INTERACTIONS, MOST_WORKERS};
pub use in_machine::{
    CellClass, CellCounts, CellNo, End, LEAST_CELLS, MOST_CELLS, Machine, Need, StartFault,
};
pub use in_turn::run_in_turn;
pub use running::{Outcome, RunFault, run, run_watched};
pub use stops::Stop;
pub use watching::{NoWatch, Progress, Watch};
