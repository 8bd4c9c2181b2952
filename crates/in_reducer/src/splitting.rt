// A part of a reducer's net is split off.
ghost use Rattle.std.specs.Prelude.{◌≡◌, ◌≤◌, ◌<◌, ◌+◌, ℕ, [], length, map, Some, IfOk, OnErr, slice_get};
ghost use Rattle.std.specs.List.{filter};
ghost use Rattle.in_arena.specs.Arenas.{NoneLeased};
ghost use Rattle.in_arena.specs.Classes.{each};
ghost use Rattle.in_arena.specs.declared.content.End.{End as Target};
ghost use Rattle.in_arena.specs.declared.content.End.TheVariants as end;
ghost use Rattle.in_arena.specs.declared.content.CellClass.{CellClass as Class};
ghost use Rattle.in_compile.specs.Cells.{count_of};
ghost use Rattle.in_compile.specs.Templates.{AreTemplatesOf, TemplateParts};
ghost use Rattle.in_interaction.specs.Queues.{both};
ghost use Rattle.in_cells.specs.Copying.{IsEndWithin, moved_end, name_in, number_in};
ghost use Rattle.in_reducer.specs.Laying.{IsFresh};
ghost use Rattle.in_reducer.specs.Limiting.{most_cells};
ghost use Rattle.in_reducer.specs.Machines.{AreNumbersBelow};
ghost use Rattle.in_reducer.specs.Parting.{CanSplit, IsSplitOff, place_of_two};
ghost use Rattle.in_reducer.specs.Splitting.{AreListsFor, AreNumbersOfTwo, ArePicked, ArePickedWithRoom, HasRoomForEnds, goes, stays};

use crate::appending::{add_sides, pair_named};
use crate::body::OwnEnd;
use crate::cut_ends::Cuts;
use crate::fresh::{Fresh, fresh_cells};
use crate::limits::MOST_ENDS;
use crate::numbered::numbered_end;
use crate::pair_queue::PairQueue;
use crate::reducer::Reducer;
use in_arena::{Arena, CellCounts, CellIndex, CellNo, EndWord};
use in_base::use_invariant;
use in_cells::{copy, moved_end, number_anew, retire_all};
use in_compile::Templates;
use std::alloc::{AllocError, Global};

/// The numbers of the whole's free ends in the rest or in the part, and lists for the free ends there and for their other ends.
#[derive(Drop)]
struct EndLists {
    numbers: Vec<u16>,
    free: Vec<OwnEnd>,
    ends: Vec<EndWord>,
}

/// .. for the rest, and for the part.
#[derive(Drop)]
struct SplitLists {
    rest: EndLists,
    part: EndLists,
}

/// All memory that splitting a part off takes.
struct PartRoom {
    lists: SplitLists,
    fresh: Fresh,
}

/// The free ends of the whole, and their other ends.
#[derive(Clone, Copy)]
struct Whole<'b> {
    cuts: Cuts,
    free: &'b [OwnEnd],
    ends: &'b [EndWord],
    ghost all_free: { length free.now ≡ cuts.own + (cuts.count + cuts.count) },
    ghost all_ends: { length ends.now ≡ cuts.own + (cuts.count + cuts.count) },
}

/// The numbers of the free ends in the rest: those from before the cuts keep theirs, and the second ends of the cuts follow. (The numbers
/// of the first ends don't matter.)
fn rest_numbers(alloc: Global, cuts: Cuts) -> Result<Vec<u16>, AllocError>
    ensures { IfOk result (λ v. AreNumbersOfTwo cuts.own cuts.count 0 (cuts.own + cuts.count) v.items) }
{
    let own = cuts.own;
    let many = cuts.ends();
    let mut numbers = Vec::with_capacity(alloc, many as usize)?;
    for number in 0..many {
        numbers.push_reserved((number.min(own) + number.saturating_sub(own) / 2) as u16);
    }
    Ok(numbers)
}

/// The numbers of the free ends in the part, which has only the first ends of the cuts.
fn part_numbers(alloc: Global, cuts: Cuts) -> Result<Vec<u16>, AllocError>
    ensures { IfOk result (λ v. AreNumbersOfTwo cuts.own cuts.count 1 cuts.count v.items) }
{
    let own = cuts.own;
    let many = cuts.ends();
    let mut numbers = Vec::with_capacity(alloc, many as usize)?;
    for number in 0..many {
        numbers.push_reserved((number.saturating_sub(own) / 2) as u16);
    }
    Ok(numbers)
}

/// Lists for `many` free ends, with these numbers.
fn lists_for(alloc: Global, numbers: Vec<u16>, many: u32) -> Result<EndLists, AllocError>
    ensures room { IfOk result (HasRoomForEnds many) }
    ensures numbers { IfOk result (λ l. l.numbers ≡ numbers) }
{
    let many = many as usize;
    let free = Vec::with_capacity(alloc, many)?;
    let ends = Vec::with_capacity(alloc, many + 2 * MOST_ENDS)?;
    Ok(EndLists {
        numbers,
        free,
        ends,
    })
}

/// Lists for the rest and the part.
fn split_lists(alloc: Global, cuts: Cuts) -> Result<SplitLists, AllocError>
    ensures { IfOk result (AreListsFor cuts.own cuts.count) }
{
    let rest = lists_for(alloc, rest_numbers(alloc, cuts)?, cuts.rest_ends())?;
    let part = lists_for(alloc, part_numbers(alloc, cuts)?, cuts.count)?;
    Ok(SplitLists { rest, part })
}

/// Takes all memory for a part with `cells` cells of each class.
fn take_room(alloc: Global, cuts: Cuts, cells: u32) -> Result<PartRoom, AllocError>
    requires { cells ≤ most_cells }
    ensures lists { IfOk result (λ r. AreListsFor cuts.own cuts.count r.lists) }
    ensures fresh { IfOk result (λ r. IsFresh (each cells) r.fresh) }
{
    let lists = split_lists(alloc, cuts)?;
    let fresh = fresh_cells(alloc, CellCounts::each(cells))?;
    Ok(PartRoom { lists, fresh })
}

/// Fills the lists of the rest: its agents keep their numbers. No memory is taken.
fn fill_rest(whole: &Whole, rest: &mut EndLists)
    requires room { HasRoomForEnds (whole.now.cuts.own + whole.now.cuts.count) rest.old }
    requires within { (k n : ℕ) → slice_get whole.now.ends.now k ≡ Some (end.Free n) → n < length rest.old.numbers.items }
    ensures free { ArePicked (λ x. x) (place_of_two whole.now.cuts.own 0) (whole.now.cuts.own + whole.now.cuts.count) whole.now.free.now rest.new.free.items }
    ensures ends { ArePickedWithRoom (moved_end (λ z. z) (number_in rest.old.numbers.items)) (place_of_two whole.now.cuts.own 0) (whole.now.cuts.own + whole.now.cuts.count) whole.now.ends.now rest.new.ends.items }
{
    for number in 0..whole.cuts.rest_ends() {
        let place = whole.cuts.in_rest(number) as usize;
        rest.free.push_reserved(whole.free[place]);
        rest.ends
            .push_reserved(numbered_end(rest.numbers.as_slice(), whole.ends[place]));
    }
    add_sides(&mut rest.ends);
}

/// Fills the lists of the part: its agents have these numbers. No memory is taken.
fn fill_part(whole: &Whole, names: &[CellIndex], part: &mut EndLists)
    requires room { HasRoomForEnds whole.now.cuts.count part.old }
    requires within { (k : ℕ) (e : Target) → slice_get whole.now.ends.now k ≡ Some e → IsEndWithin (length names.now) (length part.old.numbers.items) e }
    ensures free { ArePicked (λ x. x) (place_of_two whole.now.cuts.own 1) whole.now.cuts.count whole.now.free.now part.new.free.items }
    ensures ends { ArePickedWithRoom (moved_end (name_in names.now) (number_in part.old.numbers.items)) (place_of_two whole.now.cuts.own 1) whole.now.cuts.count whole.now.ends.now part.new.ends.items }
{
    for number in 0..whole.cuts.count {
        let place = whole.cuts.in_part(number) as usize;
        part.free.push_reserved(whole.free[place]);
        part.ends.push_reserved(moved_end(names, part.numbers.as_slice(), whole.ends[place]));
    }
    add_sides(&mut part.ends);
}

/// Moves the pairs of agents that were taken out of the arena to the part's queue, under the new numbers of these agents; both queues keep their order.
fn split_queue(arena: &Arena, names: &[CellIndex], queue: &mut PairQueue, part: &mut PairQueue)
    requires none { NoneLeased arena.now }
    requires there { (k : ℕ) (q : ℕ × ℕ) → slice_get queue.old.items k ≡ Some q → q.0 < length arena.now.states }
    requires names { (k : ℕ) (q : ℕ × ℕ) → slice_get queue.old.items k ≡ Some q → (q.0 < length names.now) × (q.1 < length names.now) }
    requires part { (part.old.items ≡ []) × (length (filter (goes arena.now) queue.old.items) ≤ part.old.room) }
    ensures rest { queue.new.items ≡ filter (stays arena.now) queue.old.items }
    ensures rest_room { queue.new.room ≡ queue.old.room }
    ensures part { part.new.items ≡ map (both (name_in names.now)) (filter (goes arena.now) queue.old.items) }
    ensures part_room { part.new.room ≡ part.old.room }
{
    for _pair in 0..queue.len() {
        let (one, other) = queue.pop_front();
        if arena.is_live(CellNo(one)) {
            queue.push_back_reserved((one, other));
        } else {
            part.push_back_reserved(pair_named(names, (one, other)));
        }
    }
}

impl<'a> Reducer<'a> {
    /// Splits these agents off, as a reducer by itself with `cells` cells of each class, which shares nothing with the rest. They and the first ends
    /// of `cuts` cuts, which came after `own` free ends, must lead only to each other, so both agents of a pair go or stay. The part has the first
    /// ends of the cuts, in their order, and the rest the others. `names` is room for the new numbers, long enough for the number of each agent; what
    /// it holds afterwards isn't promised. Refused only when out of memory, and then the reducer is as it was.
    pub fn split_off(
        &mut self,
        alloc: Global,
        agents: &[CellNo],
        own: u32,
        cuts: u32,
        cells: u32,
        names: &mut [CellIndex],
    ) -> Result<Reducer<'a>, AllocError>
        requires can { CanSplit self.old agents.now own cuts }
        requires fits { length agents.now ≤ cells }
        requires cells { cells ≤ most_cells }
        requires names { AreNumbersBelow self.old (length names.old) }
        ensures split { IfOk result (λ part. IsSplitOff self.old agents.now own cuts cells self.new part) }
        ensures names { length names.new ≡ length names.old }
        ensures refused { OnErr result (self.new ≡ self.old) }
    {
        use_invariant!(self.body);
        let cuts = Cuts { own, count: cuts };
        let room = take_room(alloc, cuts, cells)?;
        let PartRoom { lists, mut fresh } = room;
        let SplitLists { mut rest, mut part } = lists;
        let body = &mut self.body;
        let all = cuts.ends() as usize;
        let ends = &body.ends.as_slice()[..all];
        copy(
            &body.arena,
            agents,
            part.numbers.as_slice(),
            &mut fresh.arena,
            names,
        );
        number_anew(&mut body.arena, ends, rest.numbers.as_slice());
        retire_all(&mut body.arena, agents);
        let whole = Whole {
            cuts,
            free: body.free.as_slice(),
            ends,
        };
        fill_rest(&whole, &mut rest);
        fill_part(&whole, names, &mut part);
        split_queue(&body.arena, names, &mut body.queue, &mut fresh.queue);
        body.free = rest.free;
        body.ends = rest.ends;
        Ok(Reducer {
            body: fresh.into_body(body.checked, part.free, part.ends),
        })
    }
}
