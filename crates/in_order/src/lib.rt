//! Laws over runs of programs, over the definitions alone: there is no code that does anything. The definitions are those of `in_net`,
//! `in_interaction`, `in_gluing` and `in_check`.
//!
//! - **The order of interactions doesn't matter** (Lafont 1990: two different active pairs share no agent, and interactions on different pairs
//!   lead to one net in either order, up to the names of agents). `specs/Ends` has the end of a program in any order. That two interactions
//!   of one net commute is a law of `in_gluing`; the proofs (`Orders`) go from there to runs under birth names, under any names, and to their
//!   ends. `docs/theory/WHY-ORDER-DOESNT-MATTER.md` has the argument.
//! - **Parts are reduced by themselves**: runs of nets that are glued from parts (`specs/PartRuns`, `specs/GluingLaws`), and the invariant of a net
//!   that no run has to reach (`specs/Reducible`).
//! - **A net is reduced in parts** (`specs/Leading`): a wire that is cut and joined again, and two nets side by side, with any names of agents
//!   at each step.
#![tactic(auto)]

pub mod laws;
