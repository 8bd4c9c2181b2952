//! The nets that can be built up step by step: Lafont 1990's semi-simple nets, and the steps that build them.
//!
//! `turns` has one order of all nodes: the first node that splits what is left is taken out, again and again. `in_order_search` guesses it and
//! `in_node_orders` checks the guess; only if that is wrong, the order is found node by node. It serves all parts that are met, so a part is
//! known by its head, the node of it that has the first turn. `heads` puts the nodes back from the last turn to the first, and notes what
//! each of them meets at its ports. `procedure` keeps a stack of tasks for `derive`: a part that is to be derived, or a step over the last ones.
//! `plans` says which components and steps follow if a part's head is taken out, and puts them on the stack. It asks one question at each turn, the
//! fate of the component there (`Fate`: it waits, it is derived, it is outside), and goes through three stages that keep what was shown so far:
//! the classes of the node are begun (`BegunPlan`), some of them are there (`Classes`), the node is in its net (`JoinedPlan`). The first part
//! whose head is never taken out is stuck.
#![tactic(auto)]

mod heads;
pub mod laws;
mod plans;
mod procedure;
mod turns;

pub use procedure::derive;
pub use turns::found_order;
