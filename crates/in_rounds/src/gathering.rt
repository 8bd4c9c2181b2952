// The workers' part of a round.
ghost use Rattle.std.specs.Prelude.{◌≡◌, ◌≤◌, ◌<◌, ◌+◌, ◌^◌, length, All, IfOk, OnErr, OnOk, vec_len};
ghost use Rattle.in_arena.specs.Arenas.{NoneLeased, free_of};
ghost use Rattle.in_claims.specs.Seats.{fresh};
ghost use Rattle.in_rounds.specs.Gathers.{bags_of, new_gather};
ghost use Rattle.in_rounds.specs.Bringing.{AreMadeWith};
ghost use Rattle.in_rounds.specs.Lending.{AreLentOut, IsShare};

use crate::bringing::bring_all;
use crate::gather::Gather;
use crate::lending::{Crew, crew_of, lend};
use crate::plan::Plan;
use crate::threads::all;
use crate::working::Worker;
use in_arena::Arena;
use in_claims::{Board, Gate, Seat};
use in_compile::Need;
use std::alloc::{AllocError, Global};
use std::sync::Wait;
use std::thread::Threads;

/// Lets a worker for each seat place jobs of the plan, as many as it has rooms, and gathers the results. Nothing was gathered before. Returns the
/// number of started threads.
fn place_jobs<'t, R: Threads + Wait, G: Gate + Sync>(
    rt: &R,
    alloc: Global,
    plan: &Plan<'t>,
    board: &Board,
    seats: Vec<Seat>,
    share: Need,
    rooms: u32,
    arena: &mut Arena,
    gate: &G,
    gather: &mut Gather<'t>,
) -> Result<u32, AllocError>
    requires seats { All (λ s. s ≡ fresh board.now) seats.items }
    requires limit { board.now.limit ≤ length plan.now.jobs }
    requires some { 1 ≤ vec_len seats }
    requires most { vec_len seats ≤ 64 }
    requires none { NoneLeased arena.old }
    requires share { IsShare (vec_len seats) share (free_of arena.old) }
    requires gather { gather.old ≡ new_gather plan.now.jobs }
    ensures lent { OnOk result (AreLentOut (bags_of gather.new.slots) arena.old arena.new) }
    ensures jobs { OnOk result (gather.new.jobs ≡ plan.now.jobs) }
    ensures made { OnOk result (AreMadeWith plan.now.templates gather.new.slots) }
    ensures threads { IfOk result (λ n. n + 1 ≤ vec_len seats) }
    ensures refused { OnErr result (arena.new ≡ arena.old) }
{
    let many = seats.len();
    let crew = crew_of(alloc, plan, board, arena, seats, share, rooms)?;
    let begun = Vec::with_capacity(alloc, many)?;
    let Crew { hands, lent, back } = crew;
    let mut others = lend(hands, lent, plan, board, share, arena);
    let Some(mine) = others.pop() else {
        // There is at least one worker, and each has its hand.
        unreachable!()
    };
    let worker = Worker { plan, board, gate };
    let (back, threads) = all(rt, &worker, mine, others, begun, back);
    bring_all(back, plan.templates, gather, arena);
    Ok(threads)
}

/// The same with a new board.
fn place_in_seats<'t, R: Threads + Wait, G: Gate + Sync>(
    rt: &R,
    alloc: Global,
    plan: &Plan<'t>,
    workers: u32,
    share: Need,
    arena: &mut Arena,
    gate: &G,
    gather: &mut Gather<'t>,
) -> Result<u32, AllocError>
    requires some { 1 ≤ workers }
    requires most { workers ≤ 64 }
    requires few { length plan.now.jobs < 2 ^ 31 }
    requires none { NoneLeased arena.old }
    requires share { IsShare workers share (free_of arena.old) }
    requires gather { gather.old ≡ new_gather plan.now.jobs }
    ensures lent { OnOk result (AreLentOut (bags_of gather.new.slots) arena.old arena.new) }
    ensures jobs { OnOk result (gather.new.jobs ≡ plan.now.jobs) }
    ensures made { OnOk result (AreMadeWith plan.now.templates gather.new.slots) }
    ensures threads { IfOk result (λ n. n + 1 ≤ workers) }
    ensures refused { OnErr result (arena.new ≡ arena.old) }
{
    let jobs = plan.jobs.len() as u32;
    let rooms = jobs / workers + 1;
    let (board, seats) = Board::new(alloc, jobs, workers)?;
    place_jobs(
        rt, alloc, plan, &board, seats, share, rooms, arena, gate, gather,
    )
}

/// Lets `workers` workers, 1 to 64, of which the caller is one, claim the plan's jobs and place their templates in cells of the arena, each
/// with its share of the free ones; and gathers the results. Returns the number of started threads. Each worker claims while its stock holds the most
/// that a job can need, and passes the gate after each claim. Unused cells are freed.
///
/// All memory except that for starting a thread is taken before the first cell is lent. Refused only when out of memory, and then the arena is as it
/// was. If a thread can't be started, the caller does its part. It waits for its threads.
pub fn gather_jobs<'t, R: Threads + Wait, G: Gate + Sync>(
    rt: &R,
    alloc: Global,
    plan: &Plan<'t>,
    workers: u32,
    share: Need,
    arena: &mut Arena,
    gate: &G,
) -> Result<(Gather<'t>, u32), AllocError>
    requires some { 1 ≤ workers }
    requires most { workers ≤ 64 }
    requires few { length plan.now.jobs < 2 ^ 31 }
    requires none { NoneLeased arena.old }
    requires share { IsShare workers share (free_of arena.old) }
    ensures lent { IfOk result (λ r. AreLentOut (bags_of r.0.slots) arena.old arena.new) }
    ensures jobs { IfOk result (λ r. r.0.jobs ≡ plan.now.jobs) }
    ensures made { IfOk result (λ r. AreMadeWith plan.now.templates r.0.slots) }
    ensures threads { IfOk result (λ r. r.1 + 1 ≤ workers) }
    ensures refused { OnErr result (arena.new ≡ arena.old) }
{
    let mut gather = Gather::new(alloc, plan.jobs)?;
    let threads = place_in_seats(rt, alloc, plan, workers, share, arena, gate, &mut gather)?;
    Ok((gather, threads))
}
