// Whether given steps build a part of a program.
ghost use Rattle.in_c.specs.Answers.{IsVerified};

use crate::answers::{ACCEPTED, MEMORY, REFUSED, WRONG_WORDS};
use in_certificates::{GivenStep, verify_given};
use in_program::Status;
use in_syntax::{Fault, TextLimits};
use std::alloc::Global;

/// The status for these steps: that they build the rule of that number, or the net; that they don't; or that of the text.
pub fn verified(
    alloc: Global,
    text_limits: TextLimits,
    text: &[u8],
    number: u32,
    steps: &[GivenStep],
    parts: &[u32],
) -> Status
    ensures { IsVerified text_limits text.now number steps.now parts.now result }
{
    match verify_given(alloc, text_limits, text, number, steps, parts) {
        Ok(true) => ACCEPTED,
        Ok(false) => WRONG_WORDS,
        Err(Fault::Refused(_)) => REFUSED,
        Err(Fault::Memory(_)) => MEMORY,
    }
}
