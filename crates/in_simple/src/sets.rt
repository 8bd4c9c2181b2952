//! Sets of numbers below a count, as of the nodes or of the wires of an open net.
ghost use Rattle.std.specs.Prelude.{◌≡◌, ◌<◌, ◌↔◌, length, slice_set, IfOk, IsTrue, false, true, ℕ};
ghost use Rattle.in_simple.specs.Checking.{AreAll, SharesNodes};
ghost use Rattle.in_open_nets.specs.Members.{IsUnion, nodes_in};

use sqlite_items::Items;
use std::alloc::{AllocError, Global};
use std::marker::Model;

/// A set of numbers: a test for each below the count.
#[derive(Drop)]
pub(crate) struct NumberSet {
    tests: Items<bool>,
}

// Contracts see the tests.
impl Model for NumberSet {
    ghost use Rattle.std.specs.Prelude.{Bool, List};

    ghost Value = { List Bool };

    ghost view = { λ s. s.tests };
}

impl NumberSet {
    /// No members of `count` numbers.
    pub(crate) fn none(alloc: Global, count: usize) -> Result<NumberSet, AllocError>
        ensures count { IfOk result (λ set. length set ≡ count) }
        ensures none { IfOk result (λ set. (n : ℕ) → nodes_in set n ≡ false) }
    {
        let mut tests = Vec::new(alloc);
        tests.resize(count, false)?;
        Ok(NumberSet {
            tests: Items::from_vec(tests),
        })
    }

    /// How many tests there are.
    pub(crate) fn len(&self) -> usize
        ensures { result ≡ length self.now }
    {
        self.tests.len()
    }

    /// Whether the number is a member. A number past the tests isn't one.
    pub(crate) fn has(&self, number: usize) -> bool
        ensures { result ≡ nodes_in self.now number }
    {
        match self.tests.get(number) {
            Some(test) => *test,
            None => false,
        }
    }

    /// Whether all are members.
    pub(crate) fn is_all(&self) -> bool
        ensures { IsTrue result ↔ AreAll self.now (length self.now) }
    {
        for number in 0..self.len() {
            if !self.has(number) {
                return false;
            }
        }
        true
    }

    /// Whether two sets share a member.
    pub(crate) fn shares(&self, other: &NumberSet) -> bool
        ensures { IsTrue result ↔ SharesNodes self.now other.now }
    {
        for number in 0..self.len() {
            if self.has(number) && other.has(number) {
                return true;
            }
        }
        false
    }

    /// Makes the number a member.
    pub(crate) fn insert(&mut self, number: usize)
        requires { number < length self.old }
        ensures { self.new ≡ slice_set self.old number true }
    {
        self.tests.set(number, true);
    }

    /// Also makes the members of another set of the same size members.
    pub(crate) fn unite(&mut self, more: &NumberSet)
        requires { length more.now ≡ length self.old }
        ensures size { length self.new ≡ length self.old }
        ensures union { IsUnion more.now self.old self.new }
    {
        for number in 0..more.len() {
            if more.has(number) {
                self.insert(number);
            }
        }
    }
}
