//! Interactions in place, whose new agents may have the numbers that the pair had: laws on the definitions alone, for code that reduces a net in
//! cells without another copy of it.
//!
//! Such an interaction (`StepsInPlace` of `specs/`) is defined only by the net before and the net after it. It is an interaction of the net in
//! which the pair has other numbers (`Aside`), and so one up to numbers. It requires that no wire leads back to the pair. That holds if neither
//! symbol of the pair is marked (`Unmarked`).
#![tactic(auto)]

pub mod laws;
