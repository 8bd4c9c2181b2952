// The output on a text in memory, without threads.
ghost use Rattle.std.specs.Prelude.{ℕ, ◌≡◌, ◌-◌, ◌^◌, ◌<◌};
ghost use Rattle.in_arena.specs.declared.content.CellClass.{CellClass};
ghost use Rattle.in_program.specs.Acting.{AreFound, AreThese, IsReply, TellsOne, status};
ghost use Rattle.in_program.specs.Lines.{start_line};
ghost use Rattle.in_machine.specs.declared.starting.StartFault.TheVariants.{Full};
ghost use Rattle.in_command_line.specs.declared.action.Action.TheVariants.{Run};

use crate::acting::{
    FULL, MEMORY, MEMORY_LINE, Status, tell, tell_fault, tell_lines, tell_outcome,
};
use crate::runs::start_line;
use in_check::{Checked, check};
use in_run::{Limits, StartFault, run_in_turn};
use in_syntax::{TextLimits, TextOut};
use std::alloc::Global;

/// Writes the reason why there is no start: a net that doesn't fit the cells, or running out of memory.
fn tell_no_start<W: TextOut>(alloc: Global, writer: &mut W, fault: StartFault) -> Status
    requires { (W.device writer.old).failures < 2 ^ 64 - 1 }
    ensures { TellsOne (λ lines s. (c : CellClass) × (need : ℕ) × (free : ℕ) × (fault ≡ Full c need free) × AreThese (start_line c need free) (status 4) lines s)
        (W.device writer.old) (W.device writer.new) result }
{
    match fault {
        StartFault::Full { class, need, free } => {
            tell_lines(writer, start_line(alloc, class, need, free), FULL)
        }
        StartFault::Memory(_) => tell(writer, MEMORY_LINE, MEMORY),
    }
}

/// Runs an accepted program with one worker, and writes the outcome, or that its net doesn't fit.
fn tell_run_in_turn<W: TextOut>(
    alloc: Global,
    writer: &mut W,
    checked: &Checked,
    limits: Limits,
) -> Status
    requires { (W.device writer.old).failures < 2 ^ 64 - 1 }
    ensures { TellsOne (AreFound (Run limits) checked.now) (W.device writer.old) (W.device writer.new) result }
{
    match run_in_turn(alloc, checked, limits) {
        Ok(outcome) => {
            let status = tell_outcome(alloc, writer, &outcome);
            drop(outcome);
            status
        }
        Err(fault) => tell_no_start(alloc, writer, fault),
    }
}

/// Writes the output of `run` with one worker on a text in memory, and returns the status, as `act` does on a text that it reads. Starts no thread.
pub fn run_text<W: TextOut>(
    alloc: Global,
    text_limits: TextLimits,
    writer: &mut W,
    limits: Limits,
    text: &[u8],
) -> Status
    requires { (W.device writer.old).failures < 2 ^ 64 - 1 }
    ensures { TellsOne (IsReply text_limits (Run limits) text.now) (W.device writer.old) (W.device writer.new) result }
{
    match check(alloc, text_limits, text) {
        Ok(checked) => {
            let status = tell_run_in_turn(alloc, writer, &checked, limits);
            drop(checked);
            status
        }
        Err(fault) => tell_fault(alloc, writer, text, fault),
    }
}
