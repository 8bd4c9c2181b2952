// A round of a reducer.
ghost use Rattle.std.specs.Prelude.{◌≡◌, ◌⊎◌, ◌≤◌, ◌<◌, ◌+◌, ℕ, length, IfOk, OnErr};
ghost use Rattle.in_compile.specs.Templates.{AreTemplatesOf};
ghost use Rattle.in_reducer.specs.Inside.{KeepsNet};
ghost use Rattle.in_reducer.specs.Machines.{MachineParts};
ghost use Rattle.in_reducer.specs.Runs.{Runs};
ghost use Rattle.in_reducer.specs.Steps.{HasRoomAt};
ghost use Rattle.in_rounds.specs.Plans.{IsPlan};
ghost use Rattle.in_rounds.specs.Rounds.{IsFront};

use crate::gathering::gather_jobs;
use crate::plan::Plan;
use crate::sharing::share_of;
use crate::stitching::{give_back, stitch_all};
use in_claims::Gate;
use in_compile::Templates;
use in_reducer::{Body, Reducer};
use in_syntax::SymbolNo;
use std::alloc::{AllocError, Global};
use std::sync::Wait;
use std::thread::Threads;

/// The result of a round: the numbers of its interactions and of the threads that it started.
#[derive(Clone, Copy, Debug, PartialEq, Eq)]
pub struct Round {
    pub interactions: u32,
    pub threads: u32,
}

/// The symbols of each of the first `count` pairs.
fn jobs(
    alloc: Global,
    body: &Body,
    templates: &Templates,
    count: u32,
) -> Result<Vec<(SymbolNo, SymbolNo)>, AllocError>
    requires net { KeepsNet body.now }
    requires templates { AreTemplatesOf body.now.checked.now.program templates.now }
    requires count { count ≤ length body.now.queue.items }
    ensures plan { IfOk result (λ v. IsPlan (record { templates = templates.now; jobs = v.items })) }
    ensures count { IfOk result (λ v. length v.items ≡ count) }
{
    let mut jobs = Vec::with_capacity(alloc, count as usize)?;
    for number in 0..count {
        jobs.push_reserved(body.heads(number));
    }
    Ok(jobs)
}

/// Does the jobs after the first `done`, each at the first pair of the queue, as `step` does, and ends at the first one whose cells aren't free.
/// Returns the number of jobs that are then done.
fn step_on(reducer: &mut Reducer, templates: &Templates, jobs: u32, done: u32) -> u32
    requires templates { AreTemplatesOf reducer.old.program templates.now }
    requires done { done ≤ jobs }
    requires left { jobs ≤ done + length reducer.old.queue }
    ensures runs { (m : MachineParts) → Runs m done reducer.old → Runs m result reducer.new }
    ensures from { done ≤ result }
    ensures most { result ≤ jobs }
    ensures some { done < jobs → HasRoomAt reducer.old 0 → done < result }
    ensures ends { (result ≡ jobs) ⊎ (HasRoomAt reducer.new 0 → ⊥) }
{
    let mut count = done;
    while count < jobs && reducer.has_room(templates, 0) {
        reducer.step(templates, 0);
        count += 1;
    }
    count
}

/// A round: interactions of the first pairs of the queue, as many as the budget allows. Several workers, one of them the caller, place their
/// templates at once; each worker passes the gate after it has claimed a job. The interactions are done one after another, first in, first out, by
/// each pair's partners at its turn, up to that of the last job, or until the cells for the next pair aren't free.
///
/// There must be a pair, and its cells must be free; the budget is at least 1, the workers are 1 to 64, and the templates
/// are those of the program. All memory except that for starting a thread is taken before a cell is lent. Refused only when out of memory, and then
/// the reducer is as before. A thread that can't be started is no fault. It waits for its threads.
pub(crate) fn reducer_round<R: Threads + Wait, G: Gate + Sync>(
    rt: &R,
    alloc: Global,
    reducer: &mut Reducer,
    templates: &Templates,
    workers: u32,
    budget: u64,
    gate: &G,
) -> Result<Round, AllocError>
    requires templates { AreTemplatesOf reducer.old.program templates.now }
    requires pair { 0 < length reducer.old.queue }
    requires room { HasRoomAt reducer.old 0 }
    requires budget { 1 ≤ budget }
    requires some { 1 ≤ workers }
    requires most { workers ≤ 64 }
    ensures front { IfOk result (λ r. IsFront reducer.old budget reducer.new r.interactions) }
    ensures threads { IfOk result (λ r. r.threads + 1 ≤ workers) }
    ensures refused { OnErr result (reducer.new ≡ reducer.old) }
{
    let count = budget.min(u64::from(reducer.pairs())) as u32;
    let heads = jobs(alloc, &reducer.body, templates, count)?;
    let plan = Plan::new(templates, heads.as_slice());
    let largest = templates.largest_need();
    let share = share_of(reducer.vacant(), workers, largest, count / workers + 1);
    let arena = &mut reducer.body.arena;
    let (mut gather, threads) = gather_jobs(rt, alloc, &plan, workers, share, arena, gate)?;
    let stitched = stitch_all(&mut reducer.body, templates, count, &mut gather);
    give_back(&mut reducer.body, gather);
    let interactions = step_on(reducer, templates, count, stitched);
    Ok(Round {
        interactions,
        threads,
    })
}
