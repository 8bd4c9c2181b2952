//! A net in raw cells that is reduced in place: each interaction begins the right member's agents in free cells and writes its wires, and takes
//! no memory.
//!
//! A `Reducer` has a net in an arena: live cells are the agents, their ends the wires, and a list has the other ends of the free ends. Contracts see
//! it as one value (`specs/Machines.antt`): the program, the agent of each cell by number, the free ends, the queue, the free counts. Its invariant
//! is that its net is *sound* (typed, of the program's symbols, without crossing circle), not that the program reaches it, so that a part of a net
//! can be reduced in the same way. An interaction needs no more than soundness. Its free ends are its own: each is one of its program's, or an end
//! of a wire that was cut, which has a type and no name.
//!
//! `starting` places the program's net, `looking` reads it, `stepping` does one interaction: the template of the pair is found by the two
//! symbols. If neither symbol is marked, no wire leads back to the pair: then the right member's agents are begun in free cells, each wire of
//! the right member is written at its two sides, and the new pairs are queued (`wiring`). Otherwise the right member is put into free cells, `sides`
//! writes the ends at both sides of each boundary end behind the free ends in the list, `interacting` joins them one by one by `in_cells`, and
//! `queueing` adds the new pairs. Then the pair's cells are freed. The room for all this (`tools`: a list of cells, a list of pairs, the points at
//! which wires are joined; the queue; the list of ends) is taken at the start, so that an interaction takes no memory and can't be refused.
//! Pairs wait in a row (`pair_queue`). While they are few, only a first part of the row is used.
//!
//! No cell is on lease between two calls, so that the arena can be dropped. A round (`in_rounds`) lends cells to workers, and reduces the reducer's
//! parts (`body`) meanwhile: for contracts a leased cell counts as free (`at_rest` in `specs/Standing.antt`), so the view doesn't depend on which
//! cells are out. `stitching` does an interaction whose right member a worker placed: its cells are settled, and the second half of a step (`finish`)
//! joins them to the present partners of the pair's ports.
//!
//! **Parts**: `cutting` cuts a wire, and `rejoining` joins the last two free ends again. `splitting` splits off agents that lead only to each other
//! and to cuts, as a reducer by itself; `gluing` glues such a part on again, in the room that a `seam` has. `numbered` has ends under
//! other numbers.
#![tactic(auto)]

mod appending;
mod body;
mod cut_ends;
mod cutting;
mod fresh;
mod gluing;
mod interacting;
pub mod laws;
mod limits;
mod looking;
pub mod names;
mod numbered;
mod pair_queue;
mod queueing;
mod reducer;
mod rejoining;
mod seam;
mod sides;
mod splitting;
mod starting;
mod stepping;
mod stitching;
mod taking;
mod tools;
mod wiring;

pub use body::Body;
pub use in_arena::{CellClass, CellIndex, CellNo, End};
pub use in_compile::Need;
pub use in_limits::{LEAST_CELLS, MOST_CELLS};
pub use limits::MOST_FREE_ENDS;
pub use reducer::Reducer;
pub use seam::Seam;
