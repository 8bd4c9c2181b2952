//! Operations on a net in cells: the boundary ends of an interaction are joined, wires are cut and joined again, and agents are copied to
//! another arena.
//!
//! - An interaction in place: the pair is retired, and the right member is beside the rest of the net. From the highest end to the lowest,
//!   the end's two sides then lead to each other (`joining`), each end in constant time and without following a path.
//!   `exchanging` has the two writes for one end, `pairing` adds the active pair that they make.
//! - A wire is cut (`cutting`), and two free ends are joined (`rejoining`): so a net is split into parts and glued again.
//! - Agents are copied to another arena, under the numbers of the cells that they get there (`copying`): `taking` takes a cell for each, and
//!   `writing` writes their places, with cells and free ends under their new numbers (`ends`). `numbering`
//!   gives the free ends that cells lead to other numbers; `retiring` frees the cells of agents that are gone.
//!
//! By `laws` the cells then show the net after an interaction, or two nets side by side.
#![tactic(auto)]

mod copying;
mod cutting;
mod ends;
mod exchanging;
mod joining;
pub mod laws;
mod numbering;
mod pairing;
mod rejoining;
mod retiring;
mod taking;
mod writing;

pub use copying::copy;
pub use cutting::cut;
pub use ends::moved_end;
pub use exchanging::{exchange, exchange_in};
pub use joining::join_all;
pub use numbering::number_anew;
pub use pairing::{add_pair, pair_of};
pub use rejoining::join_last;
pub use retiring::retire_all;
