//! Sets that are made once for a whole run, and emptied at one stroke.
ghost use Rattle.std.specs.Prelude.{◌≡◌, ◌<◌, length, slice_set, IfOk, OnOk, OnErr, false, true, ℕ};
ghost use Rattle.in_open_nets.specs.Members.{AreMarks, IsUnion, marked, missing, nodes_in};

use crate::nodes::NodeList;
use sqlite_items::Items;
use std::alloc::{AllocError, Global};
use std::marker::Model;

/// A set of numbers below a count: a mark for each, and how many of them are no members. The members are those with the last mark, so
/// that the next mark empties the set, however large it is.
pub struct Scratch {
    marks: Items<u32>,
    last: u32,
    absent: usize,
}

// By hand, so that each drop is a call: a derived one is written out in each proof, at each way out.
impl Drop for Scratch {
    fn drop(self) {
        let Scratch {
            marks: _,
            last: _,
            absent: _,
        } = self;
    }
}

// Contracts see a test for each number.
impl Model for Scratch {
    ghost use Rattle.std.specs.Prelude.{Bool, List};
    ghost use Rattle.in_open_nets.specs.Members.{AreMarks, marked};

    ghost Value = { List Bool };

    ghost view = { λ s. marked s.last s.marks };

    ghost invariant = { λ s. AreMarks s.marks s.last s.absent };
}

/// Whether a number has the last mark. One past the marks has none.
fn is_marked(marks: &Items<u32>, last: u32, number: usize) -> bool
    ensures { result ≡ nodes_in (marked last marks.now) number }
{
    match marks.get(number) {
        Some(mark) => *mark == last,
        None => false,
    }
}

/// Gives a number the last mark. `absent` numbers don't have it before, and the returned number of them after.
fn mark(marks: &mut Items<u32>, last: u32, absent: usize, number: usize) -> usize
    requires marks { AreMarks marks.old last absent }
    requires number { number < length marks.old }
    ensures marks { AreMarks marks.new last result }
    ensures set { marked last marks.new ≡ slice_set (marked last marks.old) number true }
{
    if is_marked(&*marks, last, number) {
        return absent;
    }
    marks.set(number, last);
    absent - 1
}

/// The same for each of these nodes.
// The number of absent ones isn't kept in memory between two nodes, since most of the time here would go into that.
fn mark_all(marks: &mut Items<u32>, last: u32, absent: usize, list: &NodeList) -> usize
    requires size { length list.now ≡ length marks.old }
    requires marks { AreMarks marks.old last absent }
    ensures size { length marks.new ≡ length marks.old }
    ensures marks { AreMarks marks.new last result }
    ensures union { IsUnion list.now (marked last marks.old) (marked last marks.new) }
{
    let mut left = absent;
    for node in list.members() {
        left = mark(marks, last, left, *node as usize);
    }
    left
}

impl Scratch {
    /// No members of `count` nodes.
    pub fn new(alloc: Global, count: usize) -> Result<Scratch, AllocError>
        ensures size { IfOk result (λ set. length set ≡ count) }
        ensures none { IfOk result (λ set. (n : ℕ) → nodes_in set n ≡ false) }
    {
        let mut marks = Vec::new(alloc);
        marks.resize(count, 0)?;
        Ok(Scratch {
            marks: Items::from_vec(marks),
            last: 1,
            absent: count,
        })
    }

    /// How many tests there are.
    pub(crate) fn len(&self) -> usize
        ensures { result ≡ length self.now }
    {
        self.marks.len()
    }

    /// Whether the number is a member. A number past the tests isn't one.
    pub(crate) fn has(&self, number: usize) -> bool
        ensures { result ≡ nodes_in self.now number }
    {
        is_marked(&self.marks, self.last, number)
    }

    /// How many numbers below the count are no members.
    pub(crate) fn absent(&self) -> usize
        ensures { result ≡ missing self.now }
    {
        self.absent
    }

    /// How many members there are.
    pub(crate) fn count(&self) -> usize {
        self.marks.len().saturating_sub(self.absent)
    }

    /// Makes the number a member.
    pub(crate) fn insert(&mut self, number: usize)
        requires { number < length self.old }
        ensures { self.new ≡ slice_set self.old number true }
    {
        self.absent = mark(&mut self.marks, self.last, self.absent, number);
    }

    /// Makes these nodes members.
    pub(crate) fn insert_all(&mut self, list: &NodeList)
        requires { length list.now ≡ length self.old }
        ensures size { length self.new ≡ length self.old }
        ensures union { IsUnion list.now self.old self.new }
    {
        self.absent = mark_all(&mut self.marks, self.last, self.absent, list);
    }

    /// Removes the number.
    pub(crate) fn take(&mut self, number: usize)
        ensures { self.new ≡ slice_set self.old number false }
    {
        if self.has(number) {
            self.absent += 1;
            self.marks.set(number, 0);
        }
    }

    /// Removes all members. After more than 4,294,967,294 times it is out of memory.
    pub(crate) fn clear(&mut self) -> Result<(), AllocError>
        ensures size { length self.new ≡ length self.old }
        ensures none { OnOk result ((n : ℕ) → nodes_in self.new n ≡ false) }
        ensures refused { OnErr result (self.new ≡ self.old) }
    {
        match self.last.checked_add(1) {
            Some(next) => {
                self.last = next;
                self.absent = self.marks.len();
                Ok(())
            }
            None => Err(AllocError),
        }
    }
}
