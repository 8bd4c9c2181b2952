//! Interactions: an active pair is replaced by the right member of its rule.
//!
//! `interacting` builds the agents and wires after an interaction from the old net and the right member; only then does it put them into
//! the net (`Net::renew` of `in_net`), so that a refusal changes nothing. A `Site` (`following`) is an active pair in its net with its rule; its
//! type keeps that the two agents can interact and that the new numbers are the least unused ones.
//!
//! Each end of each agent finds its partner for itself: `outer` continues from a wire outside the pair, `inner` from a wire of the right
//! member, and `land` follows the path in and out of the right member until it lands, which takes at most two turns for each auxiliary
//! port and one more. No step links two ends at once: that partners lead back is a law (`Interactions/StaysNet`), not the code. `listing`
//! numbers the wires anew, by their first points.
//!
//! `making` walks from each boundary end for the active pairs that an interaction would make, and then goes over the right member's wires for those
//! that it has itself (`Net::pair_of_wire`, with which a machine's first queue is found too).
#![tactic(auto)]

mod following;
mod interacting;
pub mod interaction_laws;
pub mod laws;
mod listing;
mod making;

pub use interacting::{MOST_AGENTS, interact};
pub use making::made;
