//! A guess at the order in which deriving takes an open net's nodes out: always the first node, by its number, that splits its component of what
//! is left. Nothing is promised of the order. So no function here has a contract: each is proved safe and to end. A place out of range
//! has no number, nothing is put there, and each loop has a bound.
//!
//! A node splits its component exactly when none of its hub's edges in the class graph is on a cycle (`in_open_nets`). `graphs` lists the class graph
//! of the whole net in a walk along the wires, so that what is near in the net is near in memory. If the graph has no cycle, the order is known.
//! Otherwise `cycles` finds the edges on cycles, and `orders` takes nodes out one after another. `least` has the nodes that split.
//!
//! `forests` chooses a spanning forest of the edges on cycles. A wire outside it covers the edges between its ends, and an edge is on a cycle as
//! long as a wire covers it: `paths` has the number of these wires for each edge. When a node is taken out, the wires of its classes go, and the
//! edges that no wire covers any more are counted off at their hubs. If a wire of the forest goes, one of those that cover it takes its place, and
//! the others are moved: the two sides of the wire are searched by turns until the smaller one is known, and with it the wires that cross.
//!
//! Few wires are moved if the forest has those that go last. To guess them, `guesses` plays the taking out by a local rule. This rule and the
//! order of the forest's edges are this project's own choice. No bound on the moves is known: past a number of them that grows with the net,
//! the search gives up.
#![tactic(auto)]

mod cycles;
mod forests;
mod graphs;
mod guesses;
mod least;
mod numbers;
mod orders;
mod paths;

pub use orders::likely_order;
