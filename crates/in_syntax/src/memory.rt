ghost use Rattle.std.specs.Prelude.{◌≡◌, ◌+◌, ◌-◌, ◌^◌, ◌<◌, ◌≤◌, min, false, true, Some, Ok, take, length, IfOk};
ghost use Rattle.in_syntax.specs.Streams.{MovesFront, fails_write};

use crate::streams::{TextIn, TextOut};
use std::alloc::{AllocError, Global};

/// A reader that gives a text from memory, as many bytes at a time as requested. Its reads don't fail.
#[derive(Drop)]
pub struct MemoryIn<'a> {
    text: &'a [u8],
    at: usize,
    ended: bool,
    reads: u64,
    ghost within: { at ≤ length text.now },
    ghost whole: { ended ≡ true → at ≡ length text.now },
}

impl<'a> MemoryIn<'a> {
    /// The reader of a text, which it gives from its beginning.
    pub fn new(text: &'a [u8]) -> MemoryIn<'a>
        ensures text { result.text.now ≡ text.now }
        ensures begins { (result.at ≡ 0) × (result.ended ≡ false) × (result.reads ≡ 0) }
    {
        MemoryIn {
            text,
            at: 0,
            ended: false,
            reads: 0,
        }
    }
}

impl TextIn for MemoryIn<'_> {
    ghost reader = { λ s. record { device = record { bytes = Some (take s.at s.text.now); failures = 0 }; reads = s.reads; ended = s.ended } };

    fn read(&mut self, into: &mut [u8]) -> Result<usize, ()> {
        self.reads = self.reads.saturating_add(1);
        let left = self.text.len() - self.at;
        let n = left.min(into.len());
        self.ended = n == 0 && !into.is_empty();
        into[..n].copy_from_slice(&self.text[self.at..self.at + n]);
        self.at += n;
        Ok(n)
    }
}

/// A writer that keeps its bytes. Its room is taken once, when it is made, so that no write allocates: a write takes as much as there is room
/// for, and fails if it has some bytes and there is no room at all.
#[derive(Drop)]
pub struct MemoryOut {
    room: Vec<u8>,
    taken: usize,
    failures: u64,
    ghost within: { taken ≤ length room.items },
}

impl MemoryOut {
    /// A writer with room for `room` bytes, which took none yet. Its only error is running out of memory.
    pub fn new(alloc: Global, room: usize) -> Result<MemoryOut, AllocError>
        ensures { IfOk result (λ w. (length w.room.items ≡ room) × (w.taken ≡ 0) × (w.failures ≡ 0)) }
    {
        Ok(MemoryOut {
            room: vec![in alloc; 0; room]?,
            taken: 0,
            failures: 0,
        })
    }

    /// The bytes taken so far.
    pub fn text(&self) -> &[u8]
        ensures { result.now ≡ take self.now.taken self.now.room.items }
    {
        &self.room.as_slice()[..self.taken]
    }
}

impl TextOut for MemoryOut {
    ghost device = { λ s. record { bytes = Some (take s.taken s.room.items); failures = s.failures } };

    fn write(&mut self, bytes: &[u8]) -> Result<usize, ()>
        requires { self.old.failures < 2 ^ 64 - 1 }
        ensures within { IfOk result (λ n. n ≤ length bytes.now) }
        ensures taken { MovesFront (Some (take self.old.taken self.old.room.items)) (Some (take self.new.taken self.new.room.items)) result bytes.now }
        ensures failures { self.new.failures ≡ self.old.failures + fails_write result bytes.now }
        ensures fits { result ≡ Ok (min (length bytes.now) (length self.old.room.items - self.old.taken)) }
        ensures room { length self.new.room.items ≡ length self.old.room.items }
    {
        let n = bytes.len().min(self.room.len() - self.taken);
        if n == 0 && !bytes.is_empty() {
            self.failures += 1;
            return Ok(0);
        }
        self.room.as_mut_slice()[self.taken..self.taken + n].copy_from_slice(&bytes[..n]);
        self.taken += n;
        Ok(n)
    }
}
