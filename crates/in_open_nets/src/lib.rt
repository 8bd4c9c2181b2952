//! Open nets: their parts, the nodes that split these, and the steps that build a net.
//!
//! This crate has open nets, their parts and the nodes that split these, and the types of a derivation (`Derivation`, `Step`, `Stuck`). It
//! knows no nets, so that it is proved beside `in_net`. `port_classes` has the classes of a node's ports, in place.
//!
//! `wired` adds to an open net, for each port, its wire and the wire's other point, in few bytes, since searches read little else.
//! `parts` has the argument of most calls: a `Part`, the net and a set of its nodes.
//!
//! `class_graphs` lists the class graph of a part: a hub for each node, a vertex for each of its classes, a hub edge between the two, and the wires
//! between classes. `splitting` finds the first node that splits the part: `in_simple_bridges` says which edges are on a cycle, and the first
//! node none of whose hub edges is on a cycle splits the part.
//!
//! `nodes` has the nodes of a part: a list of their numbers (`NodeList`), and the list with a membership test in constant time (`NodeSet`).
//! `scratch` has these tests: a mark for each node of the net.
#![tactic(auto)]

mod class_graphs;
mod derivations;
pub mod laws;
mod nodes;
mod open_nets;
mod parts;
mod port_classes;
mod scratch;
mod splitting;
mod stuck;
mod wired;

pub use class_graphs::{ClassGraph, HubNumbers};
pub use derivations::{Derivation, Step, Stuck, Undone};
pub use nodes::{NodeList, NodeSet};
pub use open_nets::{Node, OpenNet, OpenNode, OpenPoint};
pub use parts::Part;
pub use port_classes::PortClasses;
pub use scratch::Scratch;
pub use splitting::first_splitting;
pub use wired::Wired;
