//! What the limits of a text change: by the large limits a text has the result that it has by others, unless it is refused by a limit.
#![tactic(auto)]

pub mod laws;
