//! Certificates from elsewhere: steps given as numbers, and the question whether they build a rule or the net of a text.
//!
//! `given` reads the steps, and `verifying` has the call, which uses `in_simple::verify`; by `laws` it has one result. The static
//! library gives it to C.
#![tactic(auto)]

mod given;
pub mod laws;
mod verifying;

pub use given::GivenStep;
pub use verifying::verify_given;
