//! The result of `check` on a text. The definitions allow no other, for any code.
ghost use Rattle.in_harness_texts.specs.Only.{IsOnlyAnswer};

use in_check::laws::texts_are_checked_once;
use in_check::{Checked, check};
use in_syntax::{Fault, TextLimits};
use std::alloc::Global;

/// The result of `check` on a text by the usual limits, which the definitions make unique.
fn only_answer(alloc: Global, text: &[u8]) -> Result<Checked, Fault>
    ensures { IsOnlyAnswer text.now result }
{
    texts_are_checked_once();
    check(alloc, TextLimits::Usual, text)
}

/// The same result, without that clause.
pub fn answer(alloc: Global, text: &[u8]) -> Result<Checked, Fault> {
    only_answer(alloc, text)
}
