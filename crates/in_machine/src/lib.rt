//! A machine over raw cells: a reducer with its templates, whose net its program reaches.
//!
//! A `Machine` (`machine`) adds to a reducer's invariant that its program reaches the net, and nothing else. Its `take_first` does
//! interactions of the first pairs, up to the numbers of agents. `starting` has the reasons why none starts, and `looking` its accessors. Its
//! `phase` (`phases`) reduces the net in parts, as `in_phases` does. `machine_laws` has laws on machines and their runs. `in_rounds` has rounds
//! of several workers over it, `in_run` runs within limits; both export it again.
#![tactic(auto)]

mod looking;
mod machine;
pub mod machine_laws;
mod phases;
mod starting;

pub use in_arena::{CellClass, CellCounts, CellNo, End};
pub use in_compile::Need;
pub use in_phases::{Room, Sampled, Sharing, Worked};
pub use in_reducer::{LEAST_CELLS, MOST_CELLS};
pub use machine::Machine;
pub use phases::{phase, sample};
pub use starting::StartFault;
