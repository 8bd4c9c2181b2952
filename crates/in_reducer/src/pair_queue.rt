// Active pairs that wait for their interactions.
ghost use Rattle.std.specs.Prelude.{◌≡◌, ◌≤◌, ◌<◌, ◌+◌, ◌*◌, ◌++◌, ◌∷◌, ◌^◌, ℕ, [], drop, length, remove, slice_index_or, IfOk, vec_capacity};

use std::alloc::{AllocError, Global};
use std::marker::Model;

/// The least number of pairs for which a row has room before they move to its beginning: so the row stays in the cache. This project's own choice.
const LEAST: usize = 256;

/// Pairs that wait, the first one first. All room is taken once. While few pairs wait, only a first part is used, so that it stays in the cache.
/// The pairs are those of the row from number `first` on. They move to its beginning when the row would get longer than `end`.
#[derive(Drop)]
pub(crate) struct PairQueue {
    row: Vec<(u32, u32)>,
    first: usize,
    end: usize,
    room: usize,
}

impl Model for PairQueue {
    ghost use Rattle.in_reducer.specs.PairQueues.{QueueParts, queue_view, KeepsQueue};

    ghost Value = { QueueParts };

    ghost view = { queue_view };

    ghost invariant = { KeepsQueue };
}

/// Moves the pairs from number `first` on to the beginning of the row, and adds one. Returns the new end of the row: as many pairs can
/// be added before the next move as there are now. No memory is taken.
#[cold]
#[inline(never)]
fn add_moved(row: &mut Vec<(u32, u32)>, first: usize, room: usize, pair: (u32, u32)) -> usize
    requires first { first ≤ length row.old.items }
    requires few { length row.old.items < first + room }
    requires room { 2 * room ≤ vec_capacity row.old }
    ensures items { row.new.items ≡ drop first row.old.items ++ pair ∷ [] }
    ensures end { (length row.new.items ≤ result) × (result ≤ vec_capacity row.old) }
    ensures capacity { vec_capacity row.new ≡ vec_capacity row.old }
{
    let len = row.len();
    row.as_mut_slice().copy_within(first..len, 0);
    row.truncate(len - first);
    row.push_reserved(pair);
    let pairs = row.len();
    (2 * pairs).max(LEAST).min(row.capacity())
}

impl PairQueue {
    /// A queue without pairs, with room for `room` pairs. It is refused only when out of memory.
    pub(crate) fn with_room(alloc: Global, room: usize) -> Result<PairQueue, AllocError>
        requires { room < 2 ^ 32 }
        ensures { IfOk result (λ q. q ≡ record { items = []; room = room }) }
    {
        let row = Vec::with_capacity(alloc, 2 * room)?;
        Ok(PairQueue {
            row,
            first: 0,
            end: LEAST.min(2 * room),
            room,
        })
    }

    /// The number of pairs that wait.
    #[inline(always)]
    pub(crate) fn len(&self) -> usize
        ensures { result ≡ length self.now.items }
    {
        self.row.len() - self.first
    }

    /// The pair of that number.
    #[inline(always)]
    pub(crate) fn at(&self, number: usize) -> (u32, u32)
        requires { number < length self.now.items }
        ensures { result ≡ slice_index_or self.now.items number result }
    {
        self.row[self.first + number]
    }

    /// Adds a pair. No memory is taken.
    #[inline(always)]
    pub(crate) fn push_back_reserved(&mut self, pair: (u32, u32))
        requires { length self.old.items < self.old.room }
        ensures items { self.new.items ≡ self.old.items ++ pair ∷ [] }
        ensures len { length self.new.items ≡ length self.old.items + 1 }
        ensures capacity { self.new.room ≡ self.old.room }
    {
        if self.row.len() < self.end {
            self.row.push_reserved(pair);
            return;
        }
        self.end = add_moved(&mut self.row, self.first, self.room, pair);
        self.first = 0;
    }

    /// Removes the first pair and returns it.
    #[inline(always)]
    pub(crate) fn pop_front(&mut self) -> (u32, u32)
        requires { 0 < length self.old.items }
        ensures items { self.old.items ≡ result ∷ self.new.items }
        ensures fits { length self.new.items < self.new.room }
        ensures capacity { self.new.room ≡ self.old.room }
    {
        let pair = self.row[self.first];
        self.first += 1;
        pair
    }

    /// Removes the pair of that number.
    #[inline(always)]
    pub(crate) fn remove(&mut self, number: usize)
        requires { number < length self.old.items }
        ensures items { self.new.items ≡ remove self.old.items number }
        ensures capacity { self.new.room ≡ self.old.room }
    {
        if number == self.len() - 1 {
            self.row.pop();
        } else {
            self.row.remove(self.first + number);
        }
    }
}
