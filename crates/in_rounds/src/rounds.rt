// A round of a machine.
ghost use Rattle.std.specs.Prelude.{◌≡◌, ◌≤◌, ◌<◌, ◌+◌, ℕ, length, IfOk, OnErr};
ghost use Rattle.in_check.specs.Plain.{IsReachedBy};
ghost use Rattle.in_reducer.specs.Machines.{plain_of};
ghost use Rattle.in_reducer.specs.Steps.{HasRoomAt};
ghost use Rattle.in_rounds.specs.Rounds.{IsRound};

use crate::rounding::{Round, reducer_round};
use in_base::use_promise;
use in_claims::Gate;
use in_machine::Machine;
use std::alloc::{AllocError, Global};
use std::sync::Wait;
use std::thread::Threads;

/// A round of `workers` workers, 1 to 64, of which the caller is one: the interactions of the first pairs of the queue, at most `budget` of
/// them, which is at least 1. There must be a pair, and the cells for the first one must be free.
///
/// Each worker claims jobs, which are the first pairs by number, and places their templates, while its stock holds the most that a job can need
/// and it has room; after each claim it passes the gate. Then the caller does the interactions in turn, first in, first out, as `Machine::step`
/// does: those whose templates were placed and the next ones, until there are no more jobs or the next pair's need isn't free. So a round does at
/// least one interaction, and those of all jobs if the cells that they need together are free. The jobs of each worker, and the number of cells that
/// each is lent, are open.
///
/// All memory except that for starting a thread is taken before the first claim. Refused only when out of memory, and then the machine is as it was.
/// If a thread can't be started, the caller does its part. It waits for its threads.
pub fn round<R: Threads + Wait, G: Gate + Sync>(
    rt: &R,
    alloc: Global,
    machine: &mut Machine,
    workers: u32,
    budget: u64,
    gate: &G,
) -> Result<Round, AllocError>
    requires pair { 0 < length machine.old.queue }
    requires room { HasRoomAt machine.old 0 }
    requires budget { 1 ≤ budget }
    requires some { 1 ≤ workers }
    requires most { workers ≤ 64 }
    ensures round { IfOk result (λ r. IsRound machine.old budget machine.new r.interactions) }
    ensures counted { IfOk result (λ r. (k : ℕ) → IsReachedBy (plain_of machine.old) k → IsReachedBy (plain_of machine.new) (r.interactions + k)) }
    ensures threads { IfOk result (λ r. r.threads + 1 ≤ workers) }
    ensures refused { OnErr result (machine.new ≡ machine.old) }
{
    use_promise!(machine.pairs());
    let Machine { templates, reducer } = machine;
    reducer_round(rt, alloc, reducer, templates, workers, budget, gate)
}
