//! Tables of types and symbols, and namespaces.
//!
//! `declaring` takes the names of each namespace in turn, and `searching` continues with the types of ports and the names before `(` and `[`, in the
//! net and in each rule, which a walk over the terms visits. Each pass keeps the earliest fault that it meets, and the earliest of all is returned.
//! If there is none, `tables` has the shape of each symbol. `names` is a namespace over `indexmap`; `in_net` uses it for the variables of a net.
#![tactic(auto)]

mod declaring;
pub mod laws;
mod names;
mod searching;
mod symbols;
mod tables;

pub use names::Names;
pub use symbols::{PortType, Symbols};
