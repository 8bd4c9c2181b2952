//! One order of an open net's nodes serves all parts that deriving meets: `laws` says so, and `orders` whether some nodes are that order, without a
//! search for it.
//!
//! The order is taken back from its end: the last node comes first, after the nodes that are in no turn. With each node come its edges of the
//! class graph. `arrivals` lists the edges in that order, so that the class graph of the nodes that have come is a beginning of the list.
//! `growing` goes through the list and keeps the edges on cycles: a forest, whose edges between vertices that are joined by two ways are covered.
//! A node splits the nodes that have come exactly when none of its edges to its classes is on a cycle.
//!
//! `numbering` only guesses: it numbers the vertices so that the forest's edges lead to lower numbers. What it returns is tested.
#![tactic(auto)]

mod arrivals;
mod growing;
mod heads;
pub mod laws;
mod numbering;
mod orders;
mod turns;

pub use orders::is_order;
pub use turns::turns_of;
