// A part is glued on.
ghost use Rattle.std.specs.Prelude.{◌≡◌, ◌*◌, ◌≤◌, ◌<◌, ◌+◌, ◌++◌, ℕ, length, map, All, vec_len, vec_capacity};
ghost use Rattle.in_arena.specs.Arenas.{NoneLeased};
ghost use Rattle.in_arena.specs.declared.content.CellClass.{CellClass as Class};
ghost use Rattle.in_arena.specs.Changes.{HasAllCells};
ghost use Rattle.in_arena.specs.Classes.{amount, classes, first_of};
ghost use Rattle.in_compile.specs.Cells.{agents_of, count_of};
ghost use Rattle.in_cells.specs.Copying.{IsListOfLive, moved_end, name_in, number_in};
ghost use Rattle.in_cells.specs.CopyingSteps.{AreListedBelow};
ghost use Rattle.in_reducer.specs.Gluing.{CanAppend, IsCellWithin, IsFreeWithin, glued, in_turn};
ghost use Rattle.in_reducer.specs.Limiting.{AreAllowed};
ghost use Rattle.in_reducer.specs.Parting.{IsGluedOn, place_of_two};
ghost use Rattle.in_reducer.specs.Reserved.{IsReserved};

use crate::appending::{add_free, add_pairs, add_sides};
use crate::body::OwnEnd;
use crate::cut_ends::Cuts;
use crate::numbered::numbered_end;
use crate::reducer::Reducer;
use crate::seam::Seam;
use in_arena::{Arena, CellClass, CellIndex, CellNo, EndWord};
use in_base::use_promise;
use in_cells::{copy, moved_end, number_anew};

/// The other ends of the free ends of the part and of the rest, with the new numbers of the part's cells, and of the free ends of both.
#[derive(Clone, Copy)]
struct Halves<'b> {
    names: &'b [CellIndex],
    part_numbers: &'b [u16],
    part: &'b [EndWord],
    rest_numbers: &'b [u16],
    rest: &'b [EndWord],
    ghost fewer: { length part.now ≤ length rest.now },
    ghost part_cells: { All (IsCellWithin (length names.now)) part.now },
    ghost part_free: { All (IsFreeWithin (length part_numbers.now)) part.now },
    ghost rest_free: { All (IsFreeWithin (length rest_numbers.now)) rest.now },
}

/// The numbers in the whole of the free ends of the rest. No memory is taken.
fn list_rest_numbers(cuts: Cuts, numbers: &mut Vec<u16>)
    requires { IsReserved (cuts.own + cuts.count) numbers.old }
    ensures many { length numbers.new.items ≡ cuts.own + cuts.count }
    ensures each { (k : ℕ) → k < cuts.own + cuts.count → number_in numbers.new.items k ≡ place_of_two cuts.own 0 k }
{
    for number in 0..cuts.rest_ends() {
        numbers.push_reserved(cuts.in_rest(number) as u16);
    }
}

/// The numbers in the whole of the free ends of the part. No memory is taken.
fn list_part_numbers(cuts: Cuts, numbers: &mut Vec<u16>)
    requires { IsReserved cuts.count numbers.old }
    ensures many { length numbers.new.items ≡ cuts.count }
    ensures each { (k : ℕ) → k < cuts.count → number_in numbers.new.items k ≡ place_of_two cuts.own 1 k }
{
    for cut in 0..cuts.count {
        numbers.push_reserved(cuts.in_part(cut) as u16);
    }
}

/// Adds the live cells of a class, in the order of their numbers, to those of the classes before. Cells from `used` on, which are free, aren't
/// read. It takes no memory.
fn list_class(arena: &Arena, class: CellClass, cells: &mut Vec<CellNo>)
    requires leased { NoneLeased arena.now × HasAllCells arena.now }
    requires small { AreAllowed arena.now.cells }
    requires listed { AreListedBelow arena.now (first_of arena.now.cells class) cells.old.items }
    requires few { vec_len cells.old ≤ first_of arena.now.cells class }
    requires room { length arena.now.states ≤ vec_capacity cells.old }
    ensures listed { AreListedBelow arena.now (first_of arena.now.cells class + amount arena.now.cells class) cells.new.items }
    ensures few { vec_len cells.new ≤ first_of arena.now.cells class + amount arena.now.cells class }
    ensures room { vec_capacity cells.new ≡ vec_capacity cells.old }
{
    for number in arena.cells().first(class)..arena.used(class) {
        let cell = CellNo(number);
        if arena.is_live(cell) {
            cells.push_reserved(cell);
        }
    }
}

/// The live cells of an arena that has no cell on lease, in the order of their numbers. No memory is taken.
fn list_live(arena: &Arena, cells: &mut Vec<CellNo>)
    requires leased { NoneLeased arena.now }
    requires small { AreAllowed arena.now.cells }
    requires cells { IsReserved (length arena.now.states) cells.old }
    ensures { IsListOfLive arena.now cells.new.items }
{
    use_promise!(arena.cells());
    for class in CellClass::ALL {
        list_class(arena, class, cells);
    }
}

/// Adds the free ends of the part and of the rest, by turns, to the end of others. No memory is taken.
fn add_free_in_turn(part: &[OwnEnd], rest: &[OwnEnd], free: &mut Vec<OwnEnd>)
    requires many { length rest.now ≡ length part.now }
    requires room { vec_len free.old + length part.now + length rest.now ≤ vec_capacity free.old }
    ensures items { free.new.items ≡ free.old.items ++ in_turn part.now rest.now }
    ensures room { vec_capacity free.new ≡ vec_capacity free.old }
{
    for cut in 0..part.len() {
        free.push_reserved(part[cut]);
        free.push_reserved(rest[cut]);
    }
}

/// The free ends of both, in the order of the glued net. No memory is taken.
fn glue_free(rest: &[OwnEnd], part: &[OwnEnd], free: &mut Vec<OwnEnd>)
    requires fewer { length part.now ≤ length rest.now }
    requires free { IsReserved (length part.now + length rest.now) free.old }
    ensures { (own : ℕ) → length rest.now ≡ own + length part.now → free.new.items ≡ glued own rest.now part.now }
{
    let own = rest.len() - part.len();
    add_free(&rest[..own], free);
    add_free_in_turn(part, &rest[own..], free);
}

/// Writes the other ends of the free ends of both halves, under the new numbers. It takes no memory.
fn glue_ends(halves: &Halves, ends: &mut Vec<EndWord>)
    requires { IsReserved (length halves.now.part.now + length halves.now.rest.now) ends.old }
    ensures items { (own : ℕ) → length halves.now.rest.now ≡ own + length halves.now.part.now → ends.new.items
        ≡ glued own (map (moved_end (λ z. z) (number_in halves.now.rest_numbers.now)) halves.now.rest.now) (map (moved_end (name_in halves.now.names.now) (number_in halves.now.part_numbers.now)) halves.now.part.now) }
    ensures many { vec_len ends.new ≡ length halves.now.part.now + length halves.now.rest.now }
    ensures room { vec_capacity ends.new ≡ vec_capacity ends.old }
{
    let own = halves.rest.len() - halves.part.len();
    for number in 0..own {
        ends.push_reserved(numbered_end(halves.rest_numbers, halves.rest[number]));
    }
    let of_cuts = &halves.rest[own..];
    for cut in 0..halves.part.len() {
        ends.push_reserved(moved_end(halves.names, halves.part_numbers, halves.part[cut]));
        ends.push_reserved(numbered_end(halves.rest_numbers, of_cuts[cut]));
    }
}

impl<'a> Reducer<'a> {
    /// Glues on a part that has as many free ends as there were cuts when it was split off. These alternate with the rest's ends of the cuts, so the
    /// two ends of a cut are side by side again, the last ones last, and `join_last` undoes the cuts. Each class must have as many free cells as the
    /// part has agents. `names` is room for the new numbers of the part's cells, with a place for each number in an arena of as many cells as the seam
    /// is for; what it holds afterwards isn't promised. It takes no memory: the seam has all other room.
    pub fn glue_on(&mut self, part: &Reducer, seam: Seam, names: &mut [CellIndex])
        requires can { CanAppend self.old part.now }
        requires fewer { length part.now.free ≤ length self.old.free }
        requires ends { length self.old.free + length part.now.free ≤ seam.most }
        requires cells { (c : Class) → count_of part.now.vacant c + agents_of part.now.program.tables c part.now.agents ≤ seam.cells }
        requires names { length classes * seam.cells ≤ length names.old }
        ensures glued { (own : ℕ) → length self.old.free ≡ own + length part.now.free → IsGluedOn self.old part.now own (length part.now.free) self.new }
        ensures names { length names.new ≡ length names.old }
    {
        let count = part.free_ends();
        let own = self.free_ends() - count;
        let cuts = Cuts { own, count };
        let Seam {
            most: _,
            cells: _,
            mut free,
            mut ends,
            mut agents,
            rest: mut rest_numbers,
            part: mut part_numbers,
        } = seam;
        let body = &mut self.body;
        let other = &part.body;
        list_rest_numbers(cuts, &mut rest_numbers);
        list_part_numbers(cuts, &mut part_numbers);
        list_live(&other.arena, &mut agents);
        let of_rest = &body.ends.as_slice()[..(own + count) as usize];
        number_anew(&mut body.arena, of_rest, rest_numbers.as_slice());
        copy(
            &other.arena,
            agents.as_slice(),
            part_numbers.as_slice(),
            &mut body.arena,
            names,
        );
        glue_free(body.free.as_slice(), other.free.as_slice(), &mut free);
        let halves = Halves {
            names,
            part_numbers: part_numbers.as_slice(),
            part: &other.ends.as_slice()[..count as usize],
            rest_numbers: rest_numbers.as_slice(),
            rest: of_rest,
        };
        glue_ends(&halves, &mut ends);
        add_sides(&mut ends);
        add_pairs(&other.queue, names, &mut body.queue);
        body.free = free;
        body.ends = ends;
    }
}
