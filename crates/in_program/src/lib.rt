//! The program `inet`, over any reader and any writer: it reads a text, and writes the lines on it.
//!
//! `reading` reads the text; it is checked, and all its lines are made in memory (`lines`, `steps`, `runs`) before one is written, so memory runs out
//! before the first byte or never. A printed net is written by `write_net` once the lines after it are made. `acting` has the calls, `in_turn` the
//! call that runs a text in memory without threads. The streams of the system (`streams`) are a reader and a writer that keep the reason of a failed
//! read or write, for the messages of `failures`.
#![tactic(auto)]

mod acting;
mod failures;
mod in_turn;
pub mod laws;
mod lines;
mod reading;
mod runs;
mod steps;
mod streams;

pub use acting::{Status, act, act_watched, report, report_text, tell, tell_usage, text_limits};
pub use failures::{Device, shown, tell_failure};
pub use in_run::{NoWatch, Progress, Watch};
pub use in_turn::run_text;
pub use streams::{StreamIn, StreamOut};
