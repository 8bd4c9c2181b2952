// A run whose first pairs are chosen.
ghost use Rattle.std.specs.Prelude.{ℕ, ◌≡◌, ◌≤◌, length, slice_get, Some};
ghost use Rattle.in_reducer.specs.Limiting.{AreAllowed};
ghost use Rattle.in_chosen_runs.specs.Choosing.{RunsAsChosen};

use crate::choosing::choose;
use in_check::Checked;
use in_machine::{CellCounts, Machine, StartFault};
use std::alloc::Global;

/// The outcome of such a run: its machine, the number of choices done, and the number of further interactions.
#[derive(Drop)]
pub struct Chosen<'a> {
    pub machine: Machine<'a>,
    pub chosen: usize,
    pub further: u64,
}

/// The most interactions after this many of the choices: 0 if some of them are left.
fn allowed(chosen: usize, choices: &[u32], limit: u64) -> u64
    ensures most { result ≤ limit }
    ensures all { chosen ≡ length choices.now → result ≡ limit }
    ensures left { (c : ℕ) → slice_get choices.now chosen ≡ Some c → result ≡ 0 }
{
    if chosen < choices.len() { 0 } else { limit }
}

/// Runs a program: first the interactions of the pairs of these numbers in the queue, from 0, one after another, and then, if all were done, at most
/// `limit` interactions first in, first out. It breaks off at the first choice without a pair, or whose pair needs more cells than are free, and
/// after the choices if no pair is left, or the first one needs more. Each interaction is Lafont 1990's, and takes no memory. Refused only if no
/// machine starts.
pub fn run_chosen<'a>(
    alloc: Global,
    checked: &'a Checked,
    choices: &[u32],
    limit: u64,
    cells: CellCounts,
) -> Result<Chosen<'a>, StartFault>
    requires { AreAllowed cells }
    ensures { RunsAsChosen checked.now.program choices.now limit cells result }
{
    let mut machine = Machine::with_counts(alloc, checked, cells)?;
    let chosen = choose(&mut machine, choices);
    let further = machine.take_first(allowed(chosen, choices, limit));
    Ok(Chosen {
        machine,
        chosen,
        further,
    })
}
