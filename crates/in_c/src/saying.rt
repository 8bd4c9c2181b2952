// The program's output on a text in memory.
ghost use Rattle.std.specs.Prelude.{◌≡◌, ◌≢◌, IfOk, OnErr};
ghost use Rattle.in_c.specs.Answers.{IsSaid, IsRunSaid};
ghost use Rattle.in_program.specs.Acting.{fault_status, memory_status, report_action};
ghost use Rattle.in_program.specs.Lines.{memory_line};
ghost use Rattle.in_command_line.specs.declared.action.Action.TheVariants.{Run};

use crate::answers::{Answer, FAULT, WRONG_WORDS};
use crate::collecting::Collected;
use in_program::{Status, report_text, run_text};
use in_run::Limits;
use in_syntax::TextLimits;
use std::alloc::{AllocError, Global};

/// The bytes written, with this status. A write fails only when out of memory, and then this fails too.
fn answer(writer: Collected, status: Status) -> Result<Answer, AllocError>
    ensures { IfOk result (λ a. (a.bytes ≡ writer.bytes) × (a.status ≡ status) × (status ≢ fault_status)) }
{
    let bytes = writer.into_bytes();
    if status == FAULT {
        return Err(AllocError);
    }
    Ok(Answer { bytes, status })
}

/// The output of `check`, or of `derive`, on a text. Its only error is running out of memory.
pub fn reported(
    alloc: Global,
    text_limits: TextLimits,
    derive: bool,
    text: &[u8],
) -> Result<Answer, AllocError>
    ensures { IfOk result (λ a. IsSaid text_limits (report_action derive) text.now a.bytes.items a.status) }
{
    let mut writer = Collected::new(alloc);
    let status = report_text(alloc, text_limits, &mut writer, derive, text);
    answer(writer, status)
}

/// The output and the status of `run` with one worker on a text, within limits.
fn run_said(
    alloc: Global,
    text_limits: TextLimits,
    limits: Limits,
    text: &[u8],
) -> Result<Answer, AllocError>
    ensures { IfOk result (λ a. IsSaid text_limits (Run limits) text.now a.bytes.items a.status) }
{
    let mut writer = Collected::new(alloc);
    let status = run_text(alloc, text_limits, &mut writer, limits, text);
    answer(writer, status)
}

/// The output of `run` with one worker on a text, with at most `limit` interactions and `cells` cells of each class; if one of the two is out of
/// range, the status of wrong words. Its only error is running out of memory, which comes only if both are in range.
pub fn ran(
    alloc: Global,
    text_limits: TextLimits,
    limit: u64,
    cells: u32,
    text: &[u8],
) -> Result<Answer, AllocError>
    ensures ok { IfOk result (λ a. IsRunSaid text_limits limit cells text.now a.bytes.items a.status) }
    ensures err { OnErr result (IsRunSaid text_limits limit cells text.now memory_line memory_status) }
{
    match Limits::new(1, limit, cells) {
        Some(limits) => run_said(alloc, text_limits, limits, text),
        None => Ok(Answer {
            bytes: Vec::new(alloc),
            status: WRONG_WORDS,
        }),
    }
}
