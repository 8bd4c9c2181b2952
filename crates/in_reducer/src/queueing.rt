// Pairs that go to the end of a queue.
ghost use Rattle.std.specs.Prelude.{◌≡◌, ◌≤◌, ◌<◌, ◌+◌, ◌++◌, ℕ, [], length, map, remove, reverse, Some, slice_get, vec_len, vec_capacity};
ghost use Rattle.in_interaction.specs.Queues.{both};
ghost use Rattle.in_reducer.specs.Interacting.{named};

use crate::pair_queue::PairQueue;
use in_compile::{Member, Placed};

/// Removes the pair of that number.
#[inline(always)]
pub(crate) fn take_out(queue: &mut PairQueue, number: usize)
    requires { number < length queue.old.items }
    ensures items { queue.new.items ≡ remove queue.old.items number }
    ensures room { queue.new.room ≡ queue.old.room }
{
    if number == 0 {
        queue.pop_front();
    } else {
        queue.remove(number);
    }
}

/// Moves all pairs of this list to the end of the queue, the last one first.
pub(crate) fn queue_made(made: &mut Vec<(u32, u32)>, queue: &mut PairQueue)
    requires room { length queue.old.items + vec_len made.old ≤ queue.old.room }
    ensures items { queue.new.items ≡ queue.old.items ++ reverse made.old.items }
    ensures room { queue.new.room ≡ queue.old.room }
    ensures none { made.new.items ≡ [] }
    ensures made_room { vec_capacity made.new ≡ vec_capacity made.old }
{
    for number in (0..made.len()).rev() {
        queue.push_back_reserved(made[number]);
    }
    made.clear();
}

/// Queues the active pairs among a member's agents, by the cells of these.
pub(crate) fn queue_own(member: &Member, placed: &Placed, queue: &mut PairQueue)
    requires there { (k : ℕ) (q : ℕ × ℕ) → slice_get member.now.pairs k ≡ Some q → (q.0 < length placed.now.cells) × (q.1 < length placed.now.cells) }
    requires room { length queue.old.items + length member.now.pairs ≤ queue.old.room }
    ensures items { queue.new.items ≡ queue.old.items ++ map (both (named placed.now.cells)) member.now.pairs }
    ensures room { queue.new.room ≡ queue.old.room }
{
    for number in 0..member.pairs() {
        let (one, other) = member.pair(number);
        queue.push_back_reserved((placed.cell(one).0, placed.cell(other).0));
    }
}
