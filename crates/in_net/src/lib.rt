//! Nets of agents: the net and the rules of a text, their active pairs, a copy of a net, a net whose agents and wires are exchanged.
//!
//! A net and a rule are read alike, as a *body* (`specs/TextNet.antt`): free names, heads with their terms, equations. `reading` gets the terms'
//! names from a walk, in the order of the text, and numbers the *spots*: the free or boundary ends, which are the first ones, the ports of each
//! agent, and the occurrences of variables and free names. `faults` then looks for the first fault: it counts the agents and their arguments, and
//! `counting` counts how often each name occurs.
//!
//! If there is no fault, `joining` first joins the spots of equations, arguments and heads' terms, and then takes the names one by one: the
//! partners of the two spots of a name are joined, at the later of the two places. So a chain of any length costs its length, and the links that are
//! left at the end join points alone. `building` makes the agents' ends and the wires, in the order of their places; `members` does the same for a
//! rule, whose boundary ends are numbered with the constructor's places first.
//!
//! The proof goes in the same steps. The reading (`Read`, `Terms`, `NetRead`) has each spot in at most one joint; with each name that is taken, a
//! spot leads to its partner by a chain of the text (`Ways`, `Naming`); at the end each point has one partner (`Points`, `Whole`), and no other
//! chain leads from it (`Single`).
//!
//! `pairs` finds each active pair at its lower number; `copying` copies a net. `renewing` puts other agents and wires into a net, whose free ends
//! stay and get their new partners (`rejoin`). An interaction (`specs/Interactions.antt`) is defined here as well, for `in_open_nets_of_programs`
//! and `in_typing`, which are proved beside `in_interaction`.
#![tactic(auto)]

mod building;
mod copying;
mod counting;
mod faults;
mod joining;
pub mod laws;
mod members;
mod nets;
mod pairs;
mod reading;
mod renewing;
mod rules;

pub use building::build_net;
pub use members::build_rule;
pub use nets::{AgentNo, Cell, Net, Point, Wire};
pub use pairs::in_order;
pub use rules::Rule;
