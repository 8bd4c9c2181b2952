//! The checker and the runner for programs in other languages, as a static library: each call returns the bytes that the program `inet` writes on a
//! text, and its status. `include/inet.h` has the conditions for callers in C.
//!
//! Nothing is kept from call to call, so several threads may call at once, each on its own text and room.
//!
//! There are two exports for each call: the one here is for a text with the usual limits, the one in `large` for a text with the large limits. An
//! export makes its answer in memory (`saying`, `exporting`, `diagnosing`) by a writer that keeps all bytes (`collecting`), and copies it to the
//! caller's room (`giving`); or it answers by numbers (`refusing`, `verifying`). The answers are those of `in_program`'s `report_text` and `run_text`.
//! `run_text` runs with one worker, since an export has no runtime to give to `act`. No crate can use a static library, so its tests are
//! `tests/run --only library`. `docs/use/LIBRARY.md` has the page for users.
#![tactic(auto)]

ghost use Rattle.std.specs.Prelude.{◌≡◌};
ghost use Rattle.in_c.specs.Answers.{Answers, AnswersRun, AnswersRunBy, Diagnoses, DiagnosesAsData, AnswersExport, IsRefusedAs, IsVerified};
ghost use Rattle.in_c.specs.Numbers.{version_number};
ghost use Rattle.in_program.specs.Acting.{status};
ghost use Rattle.in_command_line.specs.declared.action.Action.TheVariants.{Check, Derive};
ghost use Rattle.in_syntax.specs.declared.text_limits.TextLimits.TheVariants.{Usual};

mod answers;
mod choosing;
mod collecting;
mod diagnosing;
mod exporting;
mod giving;
pub mod large;
pub mod laws;
mod refusing;
mod saying;
mod verifying;

use crate::answers::Answer;
use crate::choosing::{RunNumbers, Shown, ran_by};
use crate::diagnosing::{told, told_as_data};
use crate::exporting::exported;
use crate::giving::give;
use crate::refusing::{Numbers, refused};
use crate::saying::{ran, reported};
use crate::verifying::verified;
use in_certificates::GivenStep;
use in_syntax::TextLimits;
use std::alloc::Global;

/// The version of these calls: a million for the first number of `in_version`'s, a thousand for the second one, and the third one.
const VERSION: u32 = 1_000;

/// The version of the library, as a number.
#[unsafe(no_mangle)]
pub extern "C" fn inet_version() -> u32
    ensures { result ≡ version_number }
{
    VERSION
}

/// The output of `inet check` on a text: the first bytes of it that fit the room, and the number of all bytes. Returns the program's
/// status.
#[unsafe(no_mangle)]
pub extern "C" fn inet_check(alloc: Global, text: &[u8], room: &mut [u8], length: &mut usize) -> u8
    ensures { Answers Usual Check text.now room.old room.new length.new result }
{
    give(
        reported(alloc, TextLimits::Usual, false, text),
        room,
        length,
    )
}

/// The same of `inet derive`.
#[unsafe(no_mangle)]
pub extern "C" fn inet_derive(alloc: Global, text: &[u8], room: &mut [u8], length: &mut usize) -> u8
    ensures { Answers Usual Derive text.now room.old room.new length.new result }
{
    give(reported(alloc, TextLimits::Usual, true, text), room, length)
}

/// The same of `inet run` with one worker, at most `limit` interactions, and `cells` cells of each class: if one of the two numbers is out of range,
/// nothing is written, and the status is that of wrong words.
#[unsafe(no_mangle)]
pub extern "C" fn inet_run(
    alloc: Global,
    text: &[u8],
    limit: u64,
    cells: u32,
    room: &mut [u8],
    length: &mut usize,
) -> u8
    ensures { AnswersRun Usual limit cells text.now room.old room.new length.new result }
{
    give(
        ran(alloc, TextLimits::Usual, limit, cells, text),
        room,
        length,
    )
}

/// The diagnosis that `inet check` writes to standard error on a refused text; nothing if it is accepted, and none when out of memory. Returns the
/// status of the text.
#[unsafe(no_mangle)]
pub extern "C" fn inet_diagnose(
    alloc: Global,
    text: &[u8],
    room: &mut [u8],
    length: &mut usize,
) -> u8
    ensures { Diagnoses Usual text.now room.old room.new length.new result }
{
    give(Ok(told(alloc, TextLimits::Usual, text)), room, length)
}

/// The same diagnosis as data: one JSON object and a line feed, as by `in_diagnosis::diagnosis_data`; nothing if the text is accepted, and none
/// when out of memory. Returns the status of the text.
#[unsafe(no_mangle)]
pub extern "C" fn inet_diagnose_data(
    alloc: Global,
    text: &[u8],
    room: &mut [u8],
    length: &mut usize,
) -> u8
    ensures { DiagnosesAsData Usual text.now room.old room.new length.new result }
{
    give(
        Ok(told_as_data(alloc, TextLimits::Usual, text)),
        room,
        length,
    )
}

/// The accepted program as data, as the program `inet_export` writes it; if the text is refused, the output of `inet check`. Returns the program's
/// status.
#[unsafe(no_mangle)]
pub extern "C" fn inet_export(alloc: Global, text: &[u8], room: &mut [u8], length: &mut usize) -> u8
    ensures { AnswersExport Usual text.now room.old room.new length.new result }
{
    give(exported(alloc, TextLimits::Usual, text), room, length)
}

/// The refusal of a text as numbers; all are 0 if it is accepted, and when out of memory. Returns the status of the text.
#[unsafe(no_mangle)]
pub extern "C" fn inet_refusal(alloc: Global, text: &[u8], refusal: &mut Numbers) -> u8
    ensures { IsRefusedAs Usual text.now refusal.new (status result) }
{
    let (numbers, status) = refused(alloc, TextLimits::Usual, text);
    *refusal = numbers;
    status.0
}

/// Whether these steps build the rule of that number of the text's program, or its net, which has the number after the last rule's. The status is 0
/// if they do, that of wrong words if they don't, or that of the text. `in_certificates` has the meaning of the numbers.
#[unsafe(no_mangle)]
pub extern "C" fn inet_verify(
    alloc: Global,
    text: &[u8],
    number: u32,
    steps: &[GivenStep],
    parts: &[u32],
) -> u8
    ensures { IsVerified Usual text.now number steps.now parts.now (status result) }
{
    verified(alloc, TextLimits::Usual, text, number, steps, parts).0
}

/// A run in which first the pairs of these numbers in the queue interact, one after another, and then at most `limit` pairs first in, first out,
/// with `cells` cells of each class: the net as `inet run` writes it, and its counts. It breaks off at a choice without a pair, or whose pair needs
/// more cells than are free. Returns 0 if no pair is left, 3 at the limit, 4 if cells are too few, and the status of wrong words for a choice
/// without a pair; nothing is written, and all numbers are 0, if the text is refused, a number is out of range, the net doesn't fit the cells, or
/// memory runs out.
#[unsafe(no_mangle)]
pub extern "C" fn inet_run_by(
    alloc: Global,
    text: &[u8],
    choices: &[u32],
    limit: u64,
    cells: u32,
    numbers: &mut RunNumbers,
    room: &mut [u8],
    length: &mut usize,
) -> u8
    ensures { AnswersRunBy Usual limit cells text.now choices.now numbers.new room.old room.new length.new result }
{
    let Shown {
        numbers: found,
        bytes,
        status,
    } = ran_by(alloc, TextLimits::Usual, text, choices, limit, cells);
    *numbers = found;
    give(Ok(Answer { bytes, status }), room, length)
}
