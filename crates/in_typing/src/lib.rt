//! Whether the wires of a net fit: Lafont 1990 has each wire join an output to an input of one type.
#![tactic(auto)]

pub mod laws;
mod typing;

pub use typing::{type_net, type_rule};
