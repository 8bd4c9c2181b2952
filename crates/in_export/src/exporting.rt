ghost use Rattle.in_export.specs.Exporting.{Exports, as_bytes};

use crate::programs::line_of;
use in_check::check;
use in_syntax::{Fault, TextLimits};
use std::alloc::Global;

/// The line of the program of a text with these limits, if the text is accepted: one JSON object and a line feed, in UTF-8, whose numbers are those that `check` returns
/// (`specs/Programs.antt` has each byte). Otherwise the text is refused as `check` refuses it, at the first fault of the first pass that has one, or
/// memory runs out. The form is this project's own choice.
pub fn export(alloc: Global, limits: TextLimits, text: &[u8]) -> Result<Vec<u8>, Fault>
    ensures { Exports limits text.now (as_bytes result) }
{
    let checked = check(alloc, limits, text)?;
    match line_of(alloc, &checked) {
        Ok(line) => Ok(line),
        Err(error) => Err(Fault::Memory(error)),
    }
}
