// Pairs, free ends and room for sides, at the end of others.
ghost use Rattle.std.specs.Prelude.{◌≡◌, ◌≤◌, ◌<◌, ◌+◌, ℕ, List, ◌++◌, length, map, vec_len, vec_capacity, slice_get, Some};
ghost use Rattle.in_arena.specs.declared.content.End.{End as Target};
ghost use Rattle.in_interaction.specs.Queues.{both};
ghost use Rattle.in_cells.specs.Copying.{name_in};
ghost use Rattle.in_reducer.specs.Inside.{most_ends};

use crate::body::OwnEnd;
use crate::limits::MOST_ENDS;
use crate::pair_queue::PairQueue;
use in_arena::{CellIndex, EndWord};

/// The pair of these agents, under their new numbers.
pub(crate) fn pair_named(names: &[CellIndex], pair: (u32, u32)) -> (u32, u32)
    requires { (pair.0 < length names.now) × (pair.1 < length names.now) }
    ensures { result ≡ both (name_in names.now) pair }
{
    (names[pair.0 as usize].no().0, names[pair.1 as usize].no().0)
}

/// Adds the pairs of a queue to the end of another, their agents under these numbers. No memory is taken.
pub(crate) fn add_pairs(pairs: &PairQueue, names: &[CellIndex], queue: &mut PairQueue)
    requires within { (k : ℕ) (q : ℕ × ℕ) → slice_get pairs.now.items k ≡ Some q → (q.0 < length names.now) × (q.1 < length names.now) }
    requires room { length queue.old.items + length pairs.now.items ≤ queue.old.room }
    ensures items { queue.new.items ≡ queue.old.items ++ map (both (name_in names.now)) pairs.now.items }
    ensures room { queue.new.room ≡ queue.old.room }
{
    for number in 0..pairs.len() {
        queue.push_back_reserved(pair_named(names, pairs.at(number)));
    }
}

/// Adds free ends to the end of others. No memory is taken.
pub(crate) fn add_free(more: &[OwnEnd], free: &mut Vec<OwnEnd>)
    requires room { vec_len free.old + length more.now ≤ vec_capacity free.old }
    ensures items { free.new.items ≡ free.old.items ++ more.now }
    ensures room { vec_capacity free.new ≡ vec_capacity free.old }
{
    for number in 0..more.len() {
        free.push_reserved(more[number]);
    }
}

/// Adds room for the sides of boundary ends, after the partners of the free ends. No memory is taken.
pub(crate) fn add_sides(ends: &mut Vec<EndWord>)
    requires room { vec_len ends.old + most_ends + most_ends ≤ vec_capacity ends.old }
    ensures items { (room : List Target) × (length room ≡ most_ends + most_ends) × (ends.new.items ≡ ends.old.items ++ room) }
    ensures room { vec_capacity ends.new ≡ vec_capacity ends.old }
{
    for _side in 0..2 * MOST_ENDS {
        ends.push_reserved(EndWord::free(0));
    }
}
