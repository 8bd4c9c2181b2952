//! The calls for a text with the large limits.

ghost use Rattle.std.specs.Prelude.{◌≡◌};
ghost use Rattle.in_c.specs.Answers.{Answers, AnswersRun, AnswersRunBy, Diagnoses, DiagnosesAsData, AnswersExport, IsRefusedAs, IsVerified};
ghost use Rattle.in_program.specs.Acting.{status};
ghost use Rattle.in_command_line.specs.declared.action.Action.TheVariants.{Check, Derive};
ghost use Rattle.in_syntax.specs.declared.text_limits.TextLimits.TheVariants.{Large};

use crate::answers::Answer;
use crate::choosing::{RunNumbers, Shown, ran_by};
use crate::diagnosing::{told, told_as_data};
use crate::exporting::exported;
use crate::giving::give;
use crate::refusing::{Numbers, refused};
use crate::saying::{ran, reported};
use crate::verifying::verified;
use in_certificates::GivenStep;
use in_syntax::TextLimits;
use std::alloc::Global;

/// `inet_check` of a text with the large limits.
#[unsafe(no_mangle)]
pub extern "C" fn inet_check_large(
    alloc: Global,
    text: &[u8],
    room: &mut [u8],
    length: &mut usize,
) -> u8
    ensures { Answers Large Check text.now room.old room.new length.new result }
{
    give(
        reported(alloc, TextLimits::Large, false, text),
        room,
        length,
    )
}

/// `inet_derive` of a text with the large limits.
#[unsafe(no_mangle)]
pub extern "C" fn inet_derive_large(
    alloc: Global,
    text: &[u8],
    room: &mut [u8],
    length: &mut usize,
) -> u8
    ensures { Answers Large Derive text.now room.old room.new length.new result }
{
    give(reported(alloc, TextLimits::Large, true, text), room, length)
}

/// `inet_run` of a text with the large limits.
#[unsafe(no_mangle)]
pub extern "C" fn inet_run_large(
    alloc: Global,
    text: &[u8],
    limit: u64,
    cells: u32,
    room: &mut [u8],
    length: &mut usize,
) -> u8
    ensures { AnswersRun Large limit cells text.now room.old room.new length.new result }
{
    give(
        ran(alloc, TextLimits::Large, limit, cells, text),
        room,
        length,
    )
}

/// `inet_diagnose` of a text with the large limits.
#[unsafe(no_mangle)]
pub extern "C" fn inet_diagnose_large(
    alloc: Global,
    text: &[u8],
    room: &mut [u8],
    length: &mut usize,
) -> u8
    ensures { Diagnoses Large text.now room.old room.new length.new result }
{
    give(Ok(told(alloc, TextLimits::Large, text)), room, length)
}

/// `inet_diagnose_data` of a text with the large limits.
#[unsafe(no_mangle)]
pub extern "C" fn inet_diagnose_data_large(
    alloc: Global,
    text: &[u8],
    room: &mut [u8],
    length: &mut usize,
) -> u8
    ensures { DiagnosesAsData Large text.now room.old room.new length.new result }
{
    give(
        Ok(told_as_data(alloc, TextLimits::Large, text)),
        room,
        length,
    )
}

/// `inet_export` of a text with the large limits.
#[unsafe(no_mangle)]
pub extern "C" fn inet_export_large(
    alloc: Global,
    text: &[u8],
    room: &mut [u8],
    length: &mut usize,
) -> u8
    ensures { AnswersExport Large text.now room.old room.new length.new result }
{
    give(exported(alloc, TextLimits::Large, text), room, length)
}

/// `inet_refusal` of a text with the large limits.
#[unsafe(no_mangle)]
pub extern "C" fn inet_refusal_large(alloc: Global, text: &[u8], refusal: &mut Numbers) -> u8
    ensures { IsRefusedAs Large text.now refusal.new (status result) }
{
    let (numbers, status) = refused(alloc, TextLimits::Large, text);
    *refusal = numbers;
    status.0
}

/// `inet_verify` of a text with the large limits.
#[unsafe(no_mangle)]
pub extern "C" fn inet_verify_large(
    alloc: Global,
    text: &[u8],
    number: u32,
    steps: &[GivenStep],
    parts: &[u32],
) -> u8
    ensures { IsVerified Large text.now number steps.now parts.now (status result) }
{
    verified(alloc, TextLimits::Large, text, number, steps, parts).0
}

/// `inet_run_by` of a text with the large limits.
#[unsafe(no_mangle)]
pub extern "C" fn inet_run_by_large(
    alloc: Global,
    text: &[u8],
    choices: &[u32],
    limit: u64,
    cells: u32,
    numbers: &mut RunNumbers,
    room: &mut [u8],
    length: &mut usize,
) -> u8
    ensures { AnswersRunBy Large limit cells text.now choices.now numbers.new room.old room.new length.new result }
{
    let Shown {
        numbers: found,
        bytes,
        status,
    } = ran_by(alloc, TextLimits::Large, text, choices, limit, cells);
    *numbers = found;
    give(Ok(Answer { bytes, status }), room, length)
}
