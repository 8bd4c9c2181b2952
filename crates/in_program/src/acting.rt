ghost use Rattle.std.specs.Prelude.{ℕ, ◌≡◌, ◌-◌, ◌^◌, ◌<◌, ◌++◌, IfOk, OnErr};
ghost use Rattle.in_machine.specs.Texts.{text_of};
ghost use Rattle.in_program.specs.Acting.{Acts, IsReply, Tells, TellsOne, TellsUsage, memory_status, AreFound, AreThese, net_shown, report_action, run_action, status, stop_status, text_limits};
ghost use Rattle.in_program.specs.Lines.{memory_line, refused_line, run_lines, start_line};
ghost use Rattle.in_arena.specs.declared.content.CellClass.{CellClass};
ghost use Rattle.in_run.specs.declared.running.RunFault.TheVariants.{Start};
ghost use Rattle.in_machine.specs.declared.starting.StartFault.TheVariants.{Full};
ghost use Rattle.in_syntax.specs.declared.faults.Fault.TheVariants.{Refused};
ghost use Rattle.in_syntax.specs.declared.faults.Refusal.{Refusal};

use crate::lines::{accepted_line, refused_line};
use crate::reading::{Input, read_text};
use crate::runs::{run_lines, start_line};
use crate::steps::derivation_lines;
use in_check::{Checked, Findings, check_finding};
use in_command_line::{Action, Request, Usage};
use in_print::{PrintFault, write_all, write_net};
use in_run::{Limits, Machine, NoWatch, Outcome, RunFault, StartFault, Stop, Watch, run_watched};
use in_syntax::{Fault, TextIn, TextLimits, TextOut};
use std::alloc::{AllocError, Global};
use std::sync::Wait;
use std::thread::Threads;

/// The exit status of the program. The numbers are this project's own choice: 0 accepted, run to its end, help, or the version; 1 refused; 2 wrong
/// words; 3 a run that stopped at its limit; 4 cells that were too few; 5 running out of memory; 6 a read or a write that failed.
#[derive(Clone, Copy, Debug, PartialEq, Eq)]
pub struct Status(pub u8);

const ACCEPTED: Status = Status(0);

const REFUSED: Status = Status(1);

const WRONG_WORDS: Status = Status(2);

const LIMIT: Status = Status(3);

pub(crate) const FULL: Status = Status(4);

pub(crate) const MEMORY: Status = Status(5);

const FAULT: Status = Status(6);

pub(crate) const MEMORY_LINE: &[u8] = b"memory\n";

fn stop_status(stop: Stop) -> Status
    ensures { result ≡ stop_status stop }
{
    match stop {
        Stop::Normal => ACCEPTED,
        Stop::Limit => LIMIT,
        Stop::Full { .. } => FULL,
    }
}

/// Writes a text, and returns the status, or that of a fault if the writer failed.
pub fn tell<W: TextOut>(writer: &mut W, text: &[u8], status: Status) -> Status
    requires { (W.device writer.old).failures < 2 ^ 64 - 1 }
    ensures { Tells (W.device writer.old) (W.device writer.new) text.now status result }
{
    match write_all(writer, text) {
        Ok(()) => status,
        Err(_) => FAULT,
    }
}

/// Writes lines, or the line `memory` if making them ran out of memory.
pub(crate) fn tell_lines<W: TextOut>(
    writer: &mut W,
    lines: Result<Vec<u8>, AllocError>,
    status: Status,
) -> Status
    requires { (W.device writer.old).failures < 2 ^ 64 - 1 }
    ensures ok { IfOk lines (λ v. Tells (W.device writer.old) (W.device writer.new) v.items status result) }
    ensures err { OnErr lines (Tells (W.device writer.old) (W.device writer.new) memory_line memory_status result) }
{
    match lines {
        Ok(lines) => tell(writer, lines.as_slice(), status),
        Err(_) => tell(writer, MEMORY_LINE, MEMORY),
    }
}

/// Writes a machine's net, and then these lines.
fn tell_net<W: TextOut>(
    alloc: Global,
    writer: &mut W,
    machine: &Machine,
    lines: &[u8],
    status: Status,
) -> Status
    requires { (W.device writer.old).failures < 2 ^ 64 - 1 }
    ensures { TellsOne (AreThese (text_of machine.now ++ lines.now) status) (W.device writer.old) (W.device writer.new) result }
{
    match write_net(alloc, machine, writer) {
        Ok(_) => tell(writer, lines, status),
        Err(PrintFault::Memory) => tell(writer, MEMORY_LINE, MEMORY),
        Err(PrintFault::Write { .. }) => FAULT,
    }
}

/// Writes the outcome of a run.
pub(crate) fn tell_outcome<W: TextOut>(alloc: Global, writer: &mut W, outcome: &Outcome) -> Status
    requires { (W.device writer.old).failures < 2 ^ 64 - 1 }
    ensures { TellsOne (AreThese (text_of outcome.now.machine ++ run_lines outcome.now.interactions outcome.now.stop) (stop_status outcome.now.stop))
        (W.device writer.old) (W.device writer.new) result }
{
    match run_lines(alloc, outcome.interactions, outcome.stop) {
        Ok(lines) => tell_net(
            alloc,
            writer,
            &outcome.machine,
            lines.as_slice(),
            stop_status(outcome.stop),
        ),
        Err(_) => tell(writer, MEMORY_LINE, MEMORY),
    }
}

/// Writes the number of a run's interactions, and its stop.
fn tell_count<W: TextOut>(alloc: Global, writer: &mut W, outcome: &Outcome) -> Status
    requires { (W.device writer.old).failures < 2 ^ 64 - 1 }
    ensures { TellsOne (AreThese (run_lines outcome.now.interactions outcome.now.stop) (stop_status outcome.now.stop)) (W.device writer.old) (W.device writer.new) result }
{
    tell_lines(
        writer,
        run_lines(alloc, outcome.interactions, outcome.stop),
        stop_status(outcome.stop),
    )
}

/// Writes that a net doesn't fit the cells, or that memory ran out.
fn tell_run_fault<W: TextOut>(alloc: Global, writer: &mut W, fault: &RunFault) -> Status
    requires { (W.device writer.old).failures < 2 ^ 64 - 1 }
    ensures { TellsOne (λ lines s. (c : CellClass) × (need : ℕ) × (free : ℕ) × (fault.now ≡ Start (Full c need free)) × AreThese (start_line c need free) (status 4) lines s)
        (W.device writer.old) (W.device writer.new) result }
{
    match fault {
        RunFault::Start(StartFault::Full { class, need, free }) => {
            tell_lines(writer, start_line(alloc, *class, *need, *free), FULL)
        }
        _ => tell(writer, MEMORY_LINE, MEMORY),
    }
}

/// Writes the outcome of a run, with or without its net.
fn tell_end<W: TextOut>(alloc: Global, writer: &mut W, net: bool, outcome: &Outcome) -> Status
    requires { (W.device writer.old).failures < 2 ^ 64 - 1 }
    ensures { TellsOne (AreThese (net_shown net (text_of outcome.now.machine) ++ run_lines outcome.now.interactions outcome.now.stop) (stop_status outcome.now.stop))
        (W.device writer.old) (W.device writer.new) result }
{
    if net {
        tell_outcome(alloc, writer, outcome)
    } else {
        tell_count(alloc, writer, outcome)
    }
}

/// Runs an accepted program, and writes the outcome, or that its net doesn't fit.
fn tell_run<T: Threads, W: TextOut, H: Watch>(
    rt: &T,
    alloc: Global,
    writer: &mut W,
    checked: &Checked,
    net: bool,
    limits: Limits,
    watch: &mut H,
) -> Status
    requires { (W.device writer.old).failures < 2 ^ 64 - 1 }
    ensures { TellsOne (AreFound (run_action net limits) checked.now) (W.device writer.old) (W.device writer.new) result }
{
    match run_watched(rt, alloc, checked, limits, watch) {
        Ok(outcome) => {
            let status = tell_end(alloc, writer, net, &outcome);
            drop(outcome);
            status
        }
        Err(fault) => {
            let status = tell_run_fault(alloc, writer, &fault);
            drop(fault);
            status
        }
    }
}

/// Writes the counts of an accepted program, or the steps that build it.
fn tell_found<W: TextOut>(alloc: Global, writer: &mut W, derive: bool, checked: &Checked) -> Status
    requires { (W.device writer.old).failures < 2 ^ 64 - 1 }
    ensures { TellsOne (AreFound (report_action derive) checked.now) (W.device writer.old) (W.device writer.new) result }
{
    if derive {
        tell_lines(writer, derivation_lines(alloc, checked), ACCEPTED)
    } else {
        tell_lines(writer, accepted_line(alloc, checked.counts()), ACCEPTED)
    }
}

/// Writes the reason why a text is refused, or that memory ran out.
pub(crate) fn tell_fault<W: TextOut>(
    alloc: Global,
    writer: &mut W,
    text: &[u8],
    fault: Fault,
) -> Status
    requires { (W.device writer.old).failures < 2 ^ 64 - 1 }
    ensures { TellsOne (λ lines s. (r : Refusal) × (fault ≡ Refused r) × AreThese (refused_line text.now r) (status 1) lines s)
        (W.device writer.old) (W.device writer.new) result }
{
    match fault {
        Fault::Refused(refusal) => {
            tell_lines(writer, refused_line(alloc, text, refusal), REFUSED)
        }
        Fault::Memory(_) => tell(writer, MEMORY_LINE, MEMORY),
    }
}

/// Writes the output of `check` on a text in memory, or that of `derive`, and returns the status, as `report` does on a text that it reads.
pub fn report_text<W: TextOut>(
    alloc: Global,
    text_limits: TextLimits,
    writer: &mut W,
    derive: bool,
    text: &[u8],
) -> Status
    requires { (W.device writer.old).failures < 2 ^ 64 - 1 }
    ensures { TellsOne (IsReply text_limits (report_action derive) text.now) (W.device writer.old) (W.device writer.new) result }
{
    tell_report(
        alloc,
        text_limits,
        writer,
        derive,
        text,
        &mut Findings::none(),
    )
}

/// The same, and what the check finds.
fn tell_report<W: TextOut>(
    alloc: Global,
    text_limits: TextLimits,
    writer: &mut W,
    derive: bool,
    text: &[u8],
    findings: &mut Findings,
) -> Status
    requires { (W.device writer.old).failures < 2 ^ 64 - 1 }
    ensures { TellsOne (IsReply text_limits (report_action derive) text.now) (W.device writer.old) (W.device writer.new) result }
{
    match check_finding(alloc, text_limits, text, findings) {
        Ok(checked) => {
            let status = tell_found(alloc, writer, derive, &checked);
            drop(checked);
            status
        }
        Err(fault) => tell_fault(alloc, writer, text, fault),
    }
}

/// Writes the output of `run` on a text.
fn tell_reply<T: Threads, W: TextOut, H: Watch>(
    rt: &T,
    alloc: Global,
    text_limits: TextLimits,
    writer: &mut W,
    net: bool,
    limits: Limits,
    text: &[u8],
    watch: &mut H,
    findings: &mut Findings,
) -> Status
    requires { (W.device writer.old).failures < 2 ^ 64 - 1 }
    ensures { TellsOne (IsReply text_limits (run_action net limits) text.now) (W.device writer.old) (W.device writer.new) result }
{
    match check_finding(alloc, text_limits, text, findings) {
        Ok(checked) => {
            let status = tell_run(rt, alloc, writer, &checked, net, limits, watch);
            drop(checked);
            status
        }
        Err(fault) => tell_fault(alloc, writer, text, fault),
    }
}

/// Reads a program's text, writes the lines of `check` on it, or those of `derive`, and returns the status. For `check` of an accepted
/// program they are one line with its counts, for `derive` the steps that build its rules and its net; for a refused one they are the line of the
/// refusal. If memory runs out, they are the line `memory` alone. It makes at most one read more than a text with these limits may have bytes, and at
/// most one more than it gets bytes. It waits for no other thread.
pub fn report<R: TextIn, W: TextOut>(
    alloc: Global,
    text_limits: TextLimits,
    derive: bool,
    reader: &mut R,
    writer: &mut W,
) -> Status
    requires reader { (R.reader reader.old).device.failures < 2 ^ 64 - 1 }
    requires writer { (W.device writer.old).failures < 2 ^ 64 - 1 }
    ensures { Acts text_limits (report_action derive) (R.reader reader.old) (R.reader reader.new) (W.device writer.old) (W.device writer.new) result }
{
    report_read(
        alloc,
        text_limits,
        derive,
        reader,
        writer,
        &mut Findings::none(),
    )
}

/// The same, and what the check finds.
fn report_read<R: TextIn, W: TextOut>(
    alloc: Global,
    text_limits: TextLimits,
    derive: bool,
    reader: &mut R,
    writer: &mut W,
    findings: &mut Findings,
) -> Status
    requires reader { (R.reader reader.old).device.failures < 2 ^ 64 - 1 }
    requires writer { (W.device writer.old).failures < 2 ^ 64 - 1 }
    ensures { Acts text_limits (report_action derive) (R.reader reader.old) (R.reader reader.new) (W.device writer.old) (W.device writer.new) result }
{
    match read_text(alloc, text_limits, reader) {
        Input::Text(text) => tell_report(
            alloc,
            text_limits,
            writer,
            derive,
            text.as_slice(),
            findings,
        ),
        Input::Memory => tell(writer, MEMORY_LINE, MEMORY),
        Input::Failed => FAULT,
    }
}

/// The same for `run`.
fn report_run<T: Threads, R: TextIn, W: TextOut, H: Watch>(
    rt: &T,
    alloc: Global,
    text_limits: TextLimits,
    net: bool,
    limits: Limits,
    reader: &mut R,
    writer: &mut W,
    watch: &mut H,
    findings: &mut Findings,
) -> Status
    requires reader { (R.reader reader.old).device.failures < 2 ^ 64 - 1 }
    requires writer { (W.device writer.old).failures < 2 ^ 64 - 1 }
    ensures { Acts text_limits (run_action net limits) (R.reader reader.old) (R.reader reader.new) (W.device writer.old) (W.device writer.new) result }
{
    match read_text(alloc, text_limits, reader) {
        Input::Text(text) => tell_reply(
            rt,
            alloc,
            text_limits,
            writer,
            net,
            limits,
            text.as_slice(),
            watch,
            findings,
        ),
        Input::Memory => tell(writer, MEMORY_LINE, MEMORY),
        Input::Failed => FAULT,
    }
}

/// The limits of the text of a request.
pub fn text_limits(request: &Request) -> TextLimits
    ensures { result ≡ text_limits request.now.large }
{
    if request.large {
        TextLimits::Large
    } else {
        TextLimits::Usual
    }
}

/// As `act`, with a watch that sees the progress of a run, and findings that get what a check finds of a refused text. Neither changes the written
/// bytes or the status.
pub fn act_watched<T: Threads, R: TextIn, W: TextOut, H: Watch>(
    rt: &T,
    alloc: Global,
    text_limits: TextLimits,
    action: &Action,
    reader: &mut R,
    writer: &mut W,
    watch: &mut H,
    findings: &mut Findings,
) -> Status
    requires reader { (R.reader reader.old).device.failures < 2 ^ 64 - 1 }
    requires writer { (W.device writer.old).failures < 2 ^ 64 - 1 }
    ensures { Acts text_limits action.now (R.reader reader.old) (R.reader reader.new) (W.device writer.old) (W.device writer.new) result }
{
    match action {
        Action::Check => report_read(alloc, text_limits, false, reader, writer, findings),
        Action::Derive => report_read(alloc, text_limits, true, reader, writer, findings),
        Action::Run(limits) => report_run(
            rt,
            alloc,
            text_limits,
            true,
            *limits,
            reader,
            writer,
            watch,
            findings,
        ),
        Action::Count(limits) => report_run(
            rt,
            alloc,
            text_limits,
            false,
            *limits,
            reader,
            writer,
            watch,
            findings,
        ),
    }
}

/// Does the action that the words name on a text with these limits: `check` and `derive` as `report` does. For `run` the lines on an accepted
/// program are the net that the run reaches, the count of its interactions and its stop, or the line of a net that doesn't fit the cells; without
/// its net the same lines except the net's. All else is as for `report`.
pub fn act<T: Threads + Wait, R: TextIn, W: TextOut>(
    rt: &T,
    alloc: Global,
    text_limits: TextLimits,
    action: &Action,
    reader: &mut R,
    writer: &mut W,
) -> Status
    requires reader { (R.reader reader.old).device.failures < 2 ^ 64 - 1 }
    requires writer { (W.device writer.old).failures < 2 ^ 64 - 1 }
    ensures { Acts text_limits action.now (R.reader reader.old) (R.reader reader.new) (W.device writer.old) (W.device writer.new) result }
{
    act_watched(
        rt,
        alloc,
        text_limits,
        action,
        reader,
        writer,
        &mut NoWatch,
        &mut Findings::none(),
    )
}

/// Writes the reason why the words name no action: help, or that memory ran out, to the output, and an error in the words to the error stream. The
/// program writes the version, which it knows. A failure to write an error changes nothing.
pub fn tell_usage<W: TextOut, E: TextOut>(usage: &Usage, output: &mut W, errors: &mut E) -> Status
    requires output { (W.device output.old).failures < 2 ^ 64 - 1 }
    requires errors { (E.device errors.old).failures < 2 ^ 64 - 1 }
    ensures { TellsUsage (W.device output.old) (W.device output.new) (E.device errors.old) (E.device errors.new) usage.now result }
{
    match usage {
        Usage::Help(text) => tell(output, text.as_bytes(), ACCEPTED),
        Usage::Version => ACCEPTED,
        Usage::Wrong(text) => {
            let _ = write_all(errors, text.as_bytes());
            WRONG_WORDS
        }
        Usage::Memory => tell(output, MEMORY_LINE, MEMORY),
    }
}
