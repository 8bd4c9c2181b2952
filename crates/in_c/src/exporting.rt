// The accepted program as data.
ghost use Rattle.std.specs.Prelude.{IfOk};
ghost use Rattle.in_c.specs.Answers.{IsExported};

use crate::answers::{ACCEPTED, Answer};
use crate::saying::reported;
use in_export::export;
use in_syntax::{Fault, TextLimits};
use std::alloc::{AllocError, Global};

/// The line of a text's program; if the text is refused, the output of `check`. Its only error is running out of memory.
pub fn exported(alloc: Global, text_limits: TextLimits, text: &[u8]) -> Result<Answer, AllocError>
    ensures { IfOk result (λ a. IsExported text_limits text.now a.bytes.items a.status) }
{
    match export(alloc, text_limits, text) {
        Ok(line) => Ok(Answer {
            bytes: line,
            status: ACCEPTED,
        }),
        Err(Fault::Refused(_)) => reported(alloc, text_limits, false, text),
        Err(Fault::Memory(error)) => Err(error),
    }
}
