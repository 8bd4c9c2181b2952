// A run whose first pairs a caller chooses.
ghost use Rattle.std.specs.Prelude.{◌≡◌, [], IfOk};
ghost use Rattle.in_machine.specs.Texts.{text_of};
ghost use Rattle.in_c.specs.Choosing.{EndsSo, IsEndAfter, IsEndAt, IsRunBy, AreGivenOut, ShowsProgram, ShowsRun, ShowsText, no_run, run_numbers};

use crate::answers::{ACCEPTED, FULL, LIMIT, MEMORY, REFUSED, WRONG_WORDS};
use crate::collecting::Collected;
use in_check::{Checked, check};
use in_chosen_runs::{Chosen, run_chosen};
use in_print::write_net;
use in_program::Status;
use in_run::{Limits, Machine, StartFault};
use in_syntax::{Fault, TextLimits};
use std::alloc::{AllocError, Global};

/// The counts of a run: the number of choices done, of interactions after them, of active pairs left, and of agents.
#[repr(C)]
#[derive(Clone, Copy, Debug, PartialEq, Eq)]
pub struct RunNumbers {
    pub chosen: u64,
    pub further: u64,
    pub pairs: u32,
    pub agents: u32,
}

const NONE: RunNumbers = RunNumbers {
    chosen: 0,
    further: 0,
    pairs: 0,
    agents: 0,
};

/// The view of a run: its counts, the text of its net, and the status.
#[derive(Drop)]
pub struct Shown {
    pub numbers: RunNumbers,
    pub bytes: Vec<u8>,
    pub status: Status,
}

/// No bytes and no numbers, with this status.
fn nothing(alloc: Global, status: Status) -> Shown
    ensures { AreGivenOut result [] no_run status }
{
    Shown {
        numbers: NONE,
        bytes: Vec::new(alloc),
        status,
    }
}

/// The text of a machine's net.
fn net_text(alloc: Global, machine: &Machine) -> Result<Vec<u8>, AllocError>
    ensures { IfOk result (λ bytes. bytes.items ≡ text_of machine.now) }
{
    let mut writer = Collected::new(alloc);
    match write_net(alloc, machine, &mut writer) {
        Ok(_) => Ok(writer.into_bytes()),
        Err(_) => Err(AllocError),
    }
}

/// The status if a choice is left: there is no pair of its number, or the pair needs more cells than are free.
fn status_at(outcome: &Chosen, number: u32) -> Status
    ensures { IsEndAt outcome.now.machine number result }
{
    if number < outcome.machine.pairs() {
        FULL
    } else {
        WRONG_WORDS
    }
}

/// The status after all choices.
fn status_after(outcome: &Chosen, limit: u64) -> Status
    ensures { IsEndAfter outcome.now limit result }
{
    if outcome.machine.pairs() == 0 {
        ACCEPTED
    } else if outcome.further == limit {
        LIMIT
    } else {
        FULL
    }
}

/// The status for the end of the run.
fn status_of(outcome: &Chosen, choices: &[u32], limit: u64) -> Status
    ensures { EndsSo choices.now limit outcome.now result }
{
    match choices.get(outcome.chosen) {
        Some(number) => status_at(outcome, *number),
        None => status_after(outcome, limit),
    }
}

/// The counts of a run so far: choices taken, further interactions, active pairs and agents.
fn numbers_of(outcome: &Chosen) -> RunNumbers
    ensures { result ≡ run_numbers outcome.now }
{
    RunNumbers {
        chosen: outcome.chosen as u64,
        further: outcome.further,
        pairs: outcome.machine.pairs(),
        agents: outcome.machine.agents(),
    }
}

/// The numbers, the net and the status at the end of the run.
fn shown_of(alloc: Global, outcome: &Chosen, choices: &[u32], limit: u64) -> Shown
    ensures { ShowsRun choices.now limit outcome.now result }
{
    match net_text(alloc, &outcome.machine) {
        Ok(bytes) => Shown {
            numbers: numbers_of(outcome),
            bytes,
            status: status_of(outcome, choices, limit),
        },
        Err(_) => nothing(alloc, MEMORY),
    }
}

/// Runs an accepted program by these choices, and returns the view of its end.
fn run_by(alloc: Global, checked: &Checked, choices: &[u32], limits: Limits) -> Shown
    ensures { ShowsProgram checked.now.program choices.now limits result }
{
    match run_chosen(alloc, checked, choices, limits.limit(), limits.cells()) {
        Ok(outcome) => {
            let shown = shown_of(alloc, &outcome, choices, limits.limit());
            drop(outcome);
            shown
        }
        Err(StartFault::Full { .. }) => nothing(alloc, FULL),
        Err(StartFault::Memory(_)) => nothing(alloc, MEMORY),
    }
}

/// The same of a text.
fn run_text_by(
    alloc: Global,
    text_limits: TextLimits,
    text: &[u8],
    choices: &[u32],
    limits: Limits,
) -> Shown
    ensures { ShowsText text_limits text.now choices.now limits result }
{
    match check(alloc, text_limits, text) {
        Ok(checked) => {
            let shown = run_by(alloc, &checked, choices, limits);
            drop(checked);
            shown
        }
        Err(Fault::Refused(_)) => nothing(alloc, REFUSED),
        Err(Fault::Memory(_)) => nothing(alloc, MEMORY),
    }
}

/// The end of a run of a text: first the pairs of these numbers interact, one after another, and then at most `limit` pairs first in, first out,
/// with `cells` cells of each class. If one of the two is out of range, nothing is shown.
pub fn ran_by(
    alloc: Global,
    text_limits: TextLimits,
    text: &[u8],
    choices: &[u32],
    limit: u64,
    cells: u32,
) -> Shown
    ensures { IsRunBy text_limits text.now choices.now limit cells result }
{
    match Limits::new(1, limit, cells) {
        Some(limits) => run_text_by(alloc, text_limits, text, choices, limits),
        None => nothing(alloc, WRONG_WORDS),
    }
}
