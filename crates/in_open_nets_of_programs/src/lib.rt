//! The open nets of nets and of rules, for the question whether these are semi-simple (Lafont 1990).
//!
//! `opening` makes the open net of a net that was built (`BuiltNet`: the net and the tables of its symbols), `opening_rules` that of a rule, by a
//! `Layout`, which says which numbers the class nodes and the agents of the rule have. `OpenNet::new` requires that each point is in exactly
//! one wire.
//!
//! Of the crates of open nets it needs only `in_open_nets`, so that it is proved beside `in_simple_deriving`.
#![tactic(auto)]

pub mod laws;
mod opening;
mod opening_rules;

pub use opening::open_net;
pub use opening_rules::open_rule;
