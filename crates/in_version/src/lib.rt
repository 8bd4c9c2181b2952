//! The version of the programs `inet` and `inet_export`, and the sum of the code from which they are built.
//!
//! Only these two programs use this crate, so that a new sum has no other crate proved anew.
#![tactic(auto)]

mod sources;

pub use sources::SOURCES;
use std::alloc::{AllocError, Global};

/// The version of both programs. No other place has the number.
pub const VERSION: &str = "0.1.0";

/// The line that the program of this name prints for `--version`, with the version and the sum.
pub fn version_line(alloc: Global, program: &str) -> Result<String, AllocError> {
    format!(in alloc; "{program} {VERSION} ({SOURCES})\n")
}
