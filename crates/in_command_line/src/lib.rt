//! The words of the command line.
//!
//! This is its own crate because `clap` takes long to load. `CommandLine` in `specs/` states the command in `clap`'s own words, and the code's
//! builders are proved to make that command. So a match by `clap` gives the request of the words.
#![tactic(auto)]

mod action;
pub mod laws;

pub use action::{Action, Request, Usage, action_of};
