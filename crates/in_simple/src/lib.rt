//! Semi-simple nets, as defined by Lafont 1990: the open net of a net or of a rule, the steps that build it, and whether given steps do.
//!
//! Verifying is here: whether a list of steps from anywhere builds an open net, checked step by step. `verifying` keeps the net that each step
//! builds: its nodes and its wires (`sets`: `NumberSet`, a test for each number) and, for each point of a wire, how many open ends are meant for it;
//! a `Root` is the agent of a graft. It also exports the parts that have crates of their own, so that these are proved side by side: open nets
//! (`in_open_nets`), how they are made of nets and rules (`in_open_nets_of_programs`), and deriving (`in_simple_deriving`).
#![tactic(auto)]

mod sets;
mod verifying;

pub use in_open_nets::{Derivation, Node, OpenNet, Step, Stuck, Undone};
pub use in_open_nets_of_programs::{open_net, open_rule};
pub use in_simple_deriving::derive;
pub use verifying::verify;
