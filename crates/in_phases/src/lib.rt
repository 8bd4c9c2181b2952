//! A net that several workers reduce in parts, which share nothing. Parts are split off one after another, each is reduced by its own thread,
//! newest pair first, with its own queue and its own cells, and they are glued on again in the opposite order.
//!
//! `gathering` gathers the agents of a part in a `branch`: the trees behind some of the pairs. `cutting` cuts the wires that lead out of it, and
//! undoes cuts; `phases` does all this, a part at a time: it splits a part off, continues with the rest while a thread reduces the part, and glues it
//! on again. So each step is on two nets alone. `sampling` does so with one small part, to see what parts are worth.
#![tactic(auto)]

mod branch;
mod closing;
mod cutting;
mod gathering;
mod phases;
mod room;
mod sampling;
mod taking;

pub use phases::{Sharing, Worked, reduce_in_parts};
pub use room::Room;
pub use sampling::{Sampled, reduce_a_part};
