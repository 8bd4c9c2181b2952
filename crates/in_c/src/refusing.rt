// A refusal as numbers.
ghost use Rattle.std.specs.Prelude.{◌≡◌};
ghost use Rattle.in_c.specs.Answers.{IsRefusedAs};
ghost use Rattle.in_c.specs.Numbers.{no_numbers, numbers_of};

use crate::answers::{ACCEPTED, MEMORY, REFUSED};
use in_check::check;
use in_diagnosis::code_number;
use in_program::Status;
use in_syntax::{Fault, Refusal, TextLimits};
use std::alloc::Global;

/// A refusal of a text: the number of the code, 1 to 15; the line and the column, from 1; the number, from 0, of the place's first byte, and of the
/// byte after its last one; and the same of the other place, which only a pair without a rule has. All are 0 if there is none.
#[repr(C)]
#[derive(Clone, Copy, Debug, PartialEq, Eq)]
pub struct Numbers {
    pub code: u32,
    pub line: u32,
    pub column: u32,
    pub from: usize,
    pub to: usize,
    pub other_from: usize,
    pub other_to: usize,
}

const NONE: Numbers = Numbers {
    code: 0,
    line: 0,
    column: 0,
    from: 0,
    to: 0,
    other_from: 0,
    other_to: 0,
};

/// The numbers of a refusal.
fn numbers_of(refusal: Refusal) -> Numbers
    ensures { result ≡ numbers_of refusal }
{
    let Refusal { code, place, other } = refusal;
    let (other_from, other_to) = match other {
        Some(other) => (other.from as usize, other.to as usize),
        None => (0, 0),
    };
    Numbers {
        code: code_number(code),
        line: place.line,
        column: place.col,
        from: place.from as usize,
        to: place.to as usize,
        other_from,
        other_to,
    }
}

/// No numbers.
fn no_numbers() -> Numbers
    ensures { result ≡ no_numbers }
{
    NONE
}

/// The refusal of a text, and the status of the text.
pub fn refused(alloc: Global, text_limits: TextLimits, text: &[u8]) -> (Numbers, Status)
    ensures { IsRefusedAs text_limits text.now result.0 result.1 }
{
    match check(alloc, text_limits, text) {
        Ok(_program) => (no_numbers(), ACCEPTED),
        Err(Fault::Refused(refusal)) => (numbers_of(refusal), REFUSED),
        Err(Fault::Memory(_)) => (no_numbers(), MEMORY),
    }
}
