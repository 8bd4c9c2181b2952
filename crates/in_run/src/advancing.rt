// The next interactions of a run.
ghost use Rattle.std.specs.Prelude.{◌≡◌, ◌≤◌, ◌<◌, ◌+◌, ◌^◌, ℕ};
ghost use Rattle.in_reducer.specs.Machines.{MachineParts};
ghost use Rattle.in_run.specs.Advancing.{RunsAnyhow};
ghost use Rattle.in_run.specs.Stops.{GoesOn};
ghost use Rattle.in_reducer.specs.Same.{RunsUpToNumbers};

use crate::pace::{Pace, SAMPLE_PAIRS, are_newest_first, half_of_cells, sampling, sharing};
use in_limits::Limits;
use in_machine::{Machine, phase, sample};
use std::alloc::Global;
use std::thread::Threads;

/// The number of pairs that are taken before the next test whether a phase pays.
pub(crate) const TURN: u64 = 1_024;

/// Does some interactions on this thread, at most `most`: in a large net of the newest pairs while half of the cells are free, otherwise of the oldest
/// ones. Returns their number.
fn take_alone(machine: &mut Machine, limits: Limits, most: u64) -> u64
    ensures goes { (m : MachineParts) (k : ℕ) → RunsAnyhow m k machine.old → RunsAnyhow m (result + k) machine.new }
    ensures most { result ≤ most }
{
    if !are_newest_first(machine) {
        return machine.take_first(most);
    }
    let count = machine.take_newest(half_of_cells(limits), most);
    if count != 0 {
        return count;
    }
    count + machine.take_first(most)
}

/// Does interactions of a long run by several workers, at most `left`: a phase if one should pay, and before each one a sample; else some
/// interactions on this thread. Returns their number.
fn by_parts<R: Threads>(
    rt: &R,
    alloc: Global,
    machine: &mut Machine,
    limits: Limits,
    interactions: u64,
    left: u64,
    pace: &mut Pace,
) -> u64
    requires { left < 2 ^ 60 }
    ensures goes { (m : MachineParts) (k : ℕ) → RunsAnyhow m k machine.old → RunsAnyhow m (result + k) machine.new }
    ensures most { result ≤ left }
{
    if pace.waits(interactions) {
        return take_alone(machine, limits, TURN.min(left));
    }
    let Some(sharing) = sharing(machine, limits, interactions, left, pace.for_each) else {
        return machine.take_first(TURN.min(left));
    };
    if !pace.is_worth {
        let pairs = SAMPLE_PAIRS.min(machine.pairs());
        let sampled = sample(
            alloc,
            machine,
            pairs,
            sampling(sharing, left),
            &mut pace.room,
        );
        pace.note_sample(
            sampled,
            sharing.parts,
            interactions.saturating_add(sampled.interactions),
        );
        return sampled.interactions;
    }
    let agents = machine.agents();
    let worked = phase(rt, alloc, machine, sharing, &mut pace.room);
    pace.note(
        worked,
        agents,
        interactions.saturating_add(worked.interactions),
    );
    worked.interactions
}

/// With one worker, or with several while no phase is considered and the net is small, does interactions of the oldest pairs, up to the limit; one
/// worker does at most `turn`. Else it does that of the oldest pair, which must have room, and some more after it, up to the limit: a phase if it pays,
/// otherwise those of some pairs one after another. Returns their number.
#[inline(always)]
pub(crate) fn advance<R: Threads>(
    rt: &R,
    alloc: Global,
    machine: &mut Machine,
    limits: Limits,
    interactions: u64,
    turn: u64,
    pace: &mut Pace,
) -> u64
    requires goes { GoesOn limits.limit machine.old interactions }
    requires turn { 1 ≤ turn }
    ensures goes { RunsAnyhow machine.old result machine.new }
    ensures turn { limits.workers ≡ 1 → RunsUpToNumbers machine.old result machine.new }
    ensures few { limits.workers ≡ 1 → result ≤ turn }
    ensures some { 1 ≤ result }
    ensures most { result + interactions ≤ limits.limit }
{
    let left = limits.limit() - interactions;
    if limits.workers() == 1 {
        return machine.take_first(left.min(turn));
    }
    let alone = pace.alone(machine, interactions);
    if alone != 0 {
        return machine.take_first(left.min(alone));
    }
    machine.step(0);
    let left = left - 1;
    1 + by_parts(rt, alloc, machine, limits, interactions, left, pace)
}
