//! The edges of a graph that are on a cycle: their two ends are joined without them too. A graph is a number of vertices, numbered from 0,
//! and a list of edges, each by its two ends.
//!
//! Nothing here knows nets. `star` has the edges at each vertex as chains of links; `forest` searches with a stack: a vertex is reached
//! when it is pushed, and numbered when it is popped. By these numbers the vertices below a vertex are an interval. `intervals` finds for
//! each number where its interval ends, and the least and the greatest number that edges lead to from it. `cycles` marks the edges: one
//! outside the forest is on a cycle, and a tree edge is on one if another edge leads out of the interval below it. No function is
//! recursive, and no edge is walked twice.
#![tactic(auto)]

mod cycles;
mod forest;
mod intervals;
pub mod laws;
mod star;

pub use cycles::on_cycles;
