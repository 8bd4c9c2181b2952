//! A graph that grows edge by edge, and which of its edges are on cycles.
ghost use Rattle.std.specs.Prelude.{◌≡◌, ◌<◌, ◌≤◌, ◌↔◌, ◌+◌, ◌^◌, ◌⊎◌, length, slice_get, take, Some, IfOk, IfSome, IsTrue, ℕ};
ghost use Rattle.in_simple_bridges.specs.Spans.{AreWithin, at};
ghost use Rattle.in_simple_bridges.specs.Walks.{HasTwoEnds, IsOnCycle};
ghost use Rattle.in_node_orders.specs.Arrivals.{Fall, HaveCome};
ghost use Rattle.in_node_orders.specs.Growing.{AreClimbable, ClimbsTo, IsGrowing, Merges};

use crate::heads::{filled, head, number_at, own_numbers};
use sqlite_items::Items;
use std::alloc::{AllocError, Global};

/// Edges, how many of them have come so far, and a forest of these: for each vertex one more than the vertex above, or 0 for a root; the
/// edge to it; and a vertex further up to which covered edges lead, or the vertex itself if the edge above it isn't covered.
#[derive(Drop)]
pub(crate) struct Growing {
    pub(crate) edges: Items<(usize, usize)>,
    pub(crate) come: usize,
    pub(crate) ups: Items<usize>,
    pub(crate) vias: Items<usize>,
    pub(crate) skips: Items<usize>,
}

/// The higher one of two numbers, and the other.
fn high_and_low(one: usize, other: usize) -> (usize, usize)
    ensures low { result.1 ≤ result.0 }
    ensures same { ((result.0 ≡ one) × (result.1 ≡ other)) ⊎ ((result.0 ≡ other) × (result.1 ≡ one)) }
{
    if one < other {
        (other, one)
    } else {
        (one, other)
    }
}

/// Covers the edge above a head, and goes on to the head there. None for a root.
fn climb(ups: &Items<usize>, skips: &mut Items<usize>, from: usize) -> Option<usize>
    requires small { from < length skips.old }
    requires climbable { AreClimbable ups.now skips.old }
    ensures size { length skips.new ≡ length skips.old }
    ensures climbable { AreClimbable ups.now skips.new }
    ensures lower { IfSome result (λ above. above < from) }
    ensures climbs { IfSome result (ClimbsTo ups.now skips.old skips.new from) }
{
    let up = number_at(ups, from);
    if up == 0 {
        return None;
    }
    let above = up - 1;
    skips.set(from, above);
    Some(head(skips, above))
}

/// Covers the way between two vertices, if there is one: always from the head with the higher number.
fn merge(ups: &Items<usize>, skips: &mut Items<usize>, from: usize, to: usize) -> bool
    requires from { from < length skips.old }
    requires to { to < length skips.old }
    requires climbable { AreClimbable ups.now skips.old }
    ensures size { length skips.new ≡ length skips.old }
    ensures merges { IsTrue result → Merges ups.now skips.old skips.new from to }
{
    let mut one = head(skips, from);
    let mut other = head(skips, to);
    while one != other {
        if one > other {
            let Some(above) = climb(ups, skips, one) else {
                return false;
            };
            one = above;
        } else {
            let Some(above) = climb(ups, skips, other) else {
                return false;
            };
            other = above;
        }
    }
    true
}

impl Growing {
    /// No edge has come yet.
    pub(crate) fn new(
        alloc: Global,
        vertices: usize,
        edges: Items<(usize, usize)>,
    ) -> Result<Growing, AllocError>
        requires { AreWithin vertices edges }
        ensures growing { IfOk result IsGrowing }
        ensures edges { IfOk result (λ g. g.edges ≡ edges) }
        ensures none { IfOk result (λ g. g.come ≡ 0) }
    {
        Ok(Growing {
            edges,
            come: 0,
            ups: filled(alloc, vertices, 0)?,
            vias: filled(alloc, vertices, 0)?,
            skips: own_numbers(alloc, vertices)?,
        })
    }

    /// The next edge hangs a root from a lower vertex.
    fn link(&mut self, high: usize, low: usize)
        requires growing { IsGrowing self.old }
        requires ends { HasTwoEnds self.old.edges self.old.come high low }
        requires root { at self.old.ups high ≡ 0 }
        requires lower { low < high }
        requires few { self.old.come + 1 < 2 ^ 64 }
        ensures edges { self.new.edges ≡ self.old.edges }
        ensures come { self.new.come ≡ self.old.come + 1 }
        ensures growing { IsGrowing self.new }
    {
        self.ups.set(high, low + 1);
        self.vias.set(high, self.come);
        self.come += 1;
    }

    /// The next edge covers the way between its ends. False if there is none.
    fn cover(&mut self, one: usize, other: usize) -> bool
        requires growing { IsGrowing self.old }
        requires ends { slice_get self.old.edges self.old.come ≡ Some (one, other) }
        requires few { self.old.come + 1 < 2 ^ 64 }
        ensures edges { self.new.edges ≡ self.old.edges }
        ensures come { IsTrue result → self.new.come ≡ self.old.come + 1 }
        ensures growing { IsTrue result → IsGrowing self.new }
    {
        if !merge(&self.ups, &mut self.skips, one, other) {
            return false;
        }
        self.come += 1;
        true
    }

    /// The next edge comes. False if it joins two trees, and doesn't lead from the root of one to a lower vertex.
    pub(crate) fn grow(&mut self) -> bool
        requires growing { IsGrowing self.old }
        requires more { self.old.come < length self.old.edges }
        ensures edges { self.new.edges ≡ self.old.edges }
        ensures come { IsTrue result → self.new.come ≡ self.old.come + 1 }
        ensures growing { IsTrue result → IsGrowing self.new }
    {
        let (one, other) = self.edges.as_slice()[self.come];
        let (high, low) = high_and_low(one, other);
        if low < high && number_at(&self.ups, high) == 0 {
            self.link(high, low);
            return true;
        }
        self.cover(one, other)
    }

    /// All edges of this turn or a later one come, where the turns of the edges fall. False if one of them can't.
    pub(crate) fn come_by(&mut self, turns: &Items<usize>, turn: usize) -> bool
        requires growing { IsGrowing self.old }
        requires size { length turns.now ≡ length self.old.edges }
        requires fall { Fall turns.now }
        requires later { (e : ℕ) → e < self.old.come → turn ≤ at turns.now e }
        ensures edges { self.new.edges ≡ self.old.edges }
        ensures growing { IsTrue result → IsGrowing self.new }
        ensures come { IsTrue result → HaveCome turns.now turn self.new.come }
    {
        while self.come < turns.len() {
            if turns.as_slice()[self.come] < turn {
                return true;
            }
            if !self.grow() {
                return false;
            }
        }
        true
    }

    /// Whether an edge that has come is on a cycle of those that have.
    pub(crate) fn is_on_cycle(&self, edge: usize) -> bool
        requires growing { IsGrowing self.now }
        requires come { edge < self.now.come }
        ensures { IsTrue result ↔ IsOnCycle (take self.now.come self.now.edges) edge }
    {
        let (one, other) = self.edges.as_slice()[edge];
        let (high, _) = high_and_low(one, other);
        if number_at(&self.ups, high) == 0 {
            return true;
        }
        if number_at(&self.vias, high) != edge {
            return true;
        }
        if number_at(&self.skips, high) != high {
            return true;
        }
        false
    }
}
