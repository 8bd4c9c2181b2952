//! Sets of nodes of an open net that a procedure goes over.
ghost use Rattle.std.specs.Prelude.{◌≡◌, ◌<◌, length, IfOk, IsTrue, false, true, ℕ};
ghost use Rattle.in_open_nets.specs.Members.{IsUnion, missing, nodes_in};
ghost use Rattle.in_open_nets.specs.Constructions.{IsIn};
ghost use Rattle.in_open_nets.specs.Parts.{IsRest};
ghost use Rattle.in_open_nets.specs.Stuck.{IsListed};

use crate::scratch::Scratch;
use in_syntax::with_room;
use sqlite_items::Items;
use std::alloc::{AllocError, Global};
use std::marker::Model;

/// Some of the numbers below a bound, in rising order. It takes as much memory as it has members, however large the net is.
pub struct NodeList {
    members: Items<u32>,
    count: usize,
}

// By hand, so that each drop is a call: a derived one is written out in each proof, at each way out.
impl Drop for NodeList {
    fn drop(self) {
        let NodeList {
            members: _,
            count: _,
        } = self;
    }
}

// Contracts see a test for each node of the net.
impl Model for NodeList {
    ghost use Rattle.std.specs.Prelude.{Bool, List};

    ghost Value = { List Bool };

    ghost use Rattle.in_open_nets.specs.Members.{nodes_in, tests_of};
    ghost use Rattle.in_open_nets.specs.Stuck.{IsListed};

    ghost view = { λ s. tests_of s.count s.members };

    ghost invariant = { λ s. IsListed (nodes_in (tests_of s.count s.members)) s.members };
}

impl NodeList {
    /// All of `count` nodes.
    pub fn all(alloc: Global, count: u32) -> Result<NodeList, AllocError>
        ensures size { IfOk result (λ set. length set ≡ count) }
        ensures all { IfOk result (λ set. (n : ℕ) → n < count → nodes_in set n ≡ true) }
    {
        let mut members = with_room(alloc, count as usize)?;
        for node in 0..count {
            members.push(node)?;
        }
        Ok(NodeList {
            members,
            count: count as usize,
        })
    }

    /// The members in rising order.
    pub fn members(&self) -> &[u32]
        ensures { IsListed (nodes_in self.now) result.now }
    {
        self.members.as_slice()
    }

    /// The nodes of a set, each of them one of these.
    fn narrowed(&self, alloc: Global, tests: &Scratch) -> Result<NodeList, AllocError>
        requires size { length tests.now ≡ length self.now }
        requires within { (n : ℕ) → IsIn n (nodes_in tests.now) → IsIn n (nodes_in self.now) }
        ensures { IfOk result (λ set. set ≡ tests.now) }
    {
        let mut members = with_room(alloc, tests.count())?;
        for node in self.members() {
            if tests.has(*node as usize) {
                members.push(*node)?;
            }
        }
        Ok(NodeList {
            members,
            count: tests.len(),
        })
    }

    /// The nodes of a set, which are these but for one node. All are copied at once, and the one is taken out.
    fn without(&self, alloc: Global, tests: &Scratch, node: usize) -> Result<NodeList, AllocError>
        requires size { length tests.now ≡ length self.now }
        requires rest { IsRest node self.now tests.now }
        ensures { IfOk result (λ set. set ≡ tests.now) }
    {
        let these = self.members();
        for (place, member) in these.iter().enumerate() {
            if *member as usize == node {
                let mut members = Items::from_slice(alloc, these)?;
                members.remove(place);
                return Ok(NodeList {
                    members,
                    count: tests.len(),
                });
            }
        }
        self.narrowed(alloc, tests)
    }

    /// How many nodes are no members.
    fn absent(&self) -> usize
        ensures { result ≡ missing self.now }
    {
        self.count.saturating_sub(self.members.len())
    }

    /// Whether these are exactly the members of a set of the same size.
    fn is_set(&self, tests: &Scratch) -> bool
        requires { length tests.now ≡ length self.now }
        ensures { IsTrue result → tests.now ≡ self.now }
    {
        if tests.absent() != self.absent() {
            return false;
        }
        for node in self.members() {
            if !tests.has(*node as usize) {
                return false;
            }
        }
        true
    }

    /// Also makes these nodes members of a set of the same size.
    pub(crate) fn add_to(&self, set: &mut Scratch)
        requires { length self.now ≡ length set.old }
        ensures size { length set.new ≡ length set.old }
        ensures union { IsUnion self.now set.old set.new }
    {
        set.insert_all(self);
    }
}

/// A set that is lent, with these members alone. Mostly it has them already: a part is what was left of the one before.
fn set_of(list: &NodeList, lent: Scratch) -> Result<Scratch, AllocError>
    requires { length lent ≡ length list.now }
    ensures { IfOk result (λ set. set ≡ list.now) }
{
    if list.is_set(&lent) {
        return Ok(lent);
    }
    let mut tests = lent;
    tests.clear()?;
    list.add_to(&mut tests);
    Ok(tests)
}

/// A list of nodes, and which nodes are in it.
pub struct NodeSet {
    list: NodeList,
    tests: Scratch,
}

// By hand, so that each drop is a call: a derived one is written out in each proof, at each way out.
impl Drop for NodeSet {
    fn drop(self) {
        let NodeSet { list: _, tests: _ } = self;
    }
}

// Contracts see the tests.
impl Model for NodeSet {
    ghost use Rattle.std.specs.Prelude.{◌≡◌, Bool, List};

    ghost Value = { List Bool };

    ghost view = { λ s. s.tests };

    ghost invariant = { λ s. s.list ≡ s.tests };
}

impl NodeSet {
    /// The nodes of a list, with their tests in a set that is lent.
    pub fn of(list: NodeList, lent: Scratch) -> Result<NodeSet, AllocError>
        requires { length lent ≡ length list }
        ensures { IfOk result (λ set. set ≡ list) }
    {
        let tests = set_of(&list, lent)?;
        Ok(NodeSet { list, tests })
    }

    /// Whether the node is a member. A node past the tests isn't one.
    pub fn has(&self, node: usize) -> bool
        ensures { result ≡ nodes_in self.now node }
    {
        self.tests.has(node)
    }

    /// The members in rising order.
    pub fn members(&self) -> &[u32]
        ensures { IsListed (nodes_in self.now) result.now }
    {
        self.list.members()
    }

    /// These without one, and the list of these.
    pub fn without(self, alloc: Global, node: usize) -> Result<(NodeSet, NodeList), AllocError>
        requires { node < length self }
        ensures size { IfOk result (λ r. length r.0 ≡ length self) }
        ensures rest { IfOk result (λ r. IsRest node self r.0) }
        ensures out { IfOk result (λ r. nodes_in r.0 node ≡ false) }
        ensures list { IfOk result (λ r. r.1 ≡ self) }
    {
        let NodeSet {
            list: whole,
            mut tests,
        } = self;
        tests.take(node);
        let list = whole.without(alloc, &tests, node)?;
        Ok((NodeSet { list, tests }, whole))
    }
}
