//! Whether nodes are the order in which deriving takes them out.
ghost use Rattle.std.specs.Prelude.{◌≡◌, ◌<◌, ◌≤◌, ◌+◌, ◌↔◌, [], length, slice_get, Some, IfOk, IsTrue, ℕ};
ghost use Rattle.in_simple_bridges.specs.Spans.{at};
ghost use Rattle.in_open_nets.specs.Constructions.{IsIn};
ghost use Rattle.in_open_nets.specs.OpenNets.{open_graph};
ghost use Rattle.in_open_nets.specs.Splitting.{SplitsAt};
ghost use Rattle.in_node_orders.specs.Orders.{IsNodeOrder, NoNodeSplits};
ghost use Rattle.in_node_orders.specs.Arrivals.{AreArrivals, IsWholeGraph};
ghost use Rattle.in_node_orders.specs.Growing.{IsGrowing};
ghost use Rattle.in_node_orders.specs.Left.{HasSplitting, ShowsLeft, IsTested, left_nodes};
ghost use Rattle.in_node_orders.specs.Turns.{AreTurns, left_at};

use crate::arrivals::{Arrivals, list_arrivals};
use crate::growing::Growing;
use crate::turns::turns_of;
use in_open_nets::{ClassGraph, NodeList, NodeSet, Part, Scratch, Wired};
use sqlite_items::Items;
use std::alloc::{AllocError, Global};

/// The nodes that are left at a turn: the edges of their class graph have come. Those of them that split what is left are among `free`, the least
/// one last.
#[derive(Drop)]
pub(crate) struct Left {
    pub(crate) arrivals: Arrivals,
    pub(crate) growing: Growing,
    pub(crate) turn: usize,
    pub(crate) free: Items<u32>,
}

impl Left {
    /// Whether a node that is left splits what is left: none of its hub edges is on a cycle.
    fn splits(&self, wired: &Wired, node: usize) -> bool
        requires left { ShowsLeft wired.now self.now }
        requires here { IsIn node (left_nodes wired.now self.now) }
        ensures { IsTrue result ↔ SplitsAt (open_graph wired.now) node (left_nodes wired.now self.now) }
    {
        for class in 0..wired.width(node) {
            if self.growing.is_on_cycle(self.arrivals.place(node, class)) {
                return false;
            }
        }
        true
    }

    /// The edges of the turn come. False if one of them can't.
    fn come(&mut self, wired: &Wired) -> bool
        requires arrivals { AreArrivals wired.now self.old.growing.edges self.old.arrivals }
        requires growing { IsGrowing self.old.growing }
        requires later { (e : ℕ) → e < self.old.growing.come → self.old.turn ≤ at self.old.arrivals.turns e }
        ensures arrivals { self.new.arrivals ≡ self.old.arrivals }
        ensures turn { self.new.turn ≡ self.old.turn }
        ensures free { self.new.free ≡ self.old.free }
        ensures left { IsTrue result → ShowsLeft wired.now self.new }
    {
        self.growing.come_by(&self.arrivals.turns, self.turn)
    }

    /// Whether no node that is left splits what is left.
    fn is_stuck(&self, wired: &Wired) -> bool
        requires { ShowsLeft wired.now self.now }
        ensures { IsTrue result → NoNodeSplits wired.now (left_nodes wired.now self.now) }
    {
        for node in 0..wired.nodes() {
            if self.arrivals.node_turns.as_slice()[node] >= self.turn && self.splits(wired, node) {
                return false;
            }
        }
        true
    }

    /// Whether the node comes before all of `free`. Those that no longer split what is left are taken off first.
    fn is_before(&mut self, wired: &Wired, node: u32) -> bool
        requires left { ShowsLeft wired.now self.old }
        requires free { HasSplitting wired.now (left_nodes wired.now self.old) (left_at wired.now self.old.arrivals.node_turns (self.old.turn + 1)) self.old.free }
        ensures arrivals { self.new.arrivals ≡ self.old.arrivals }
        ensures growing { self.new.growing ≡ self.old.growing }
        ensures turn { self.new.turn ≡ self.old.turn }
        ensures free { HasSplitting wired.now (left_nodes wired.now self.old) (left_at wired.now self.old.arrivals.node_turns (self.old.turn + 1)) self.new.free }
        ensures before { IsTrue result → ((k m : ℕ) → slice_get self.new.free k ≡ Some m → node < m) }
    {
        while self.free.len() > 0 {
            let last = self.free.as_slice()[self.free.len() - 1];
            if self.splits(wired, last as usize) {
                return node < last;
            }
            let _ = self.free.pop();
        }
        true
    }

    /// The node of the turn before is put back. False if it isn't the first one that splits what is left then.
    fn put_back(&mut self, wired: &Wired, nodes: &Items<u32>) -> Result<bool, AllocError>
        requires tested { IsTested wired.now nodes.now self.old }
        requires turn { 0 < self.old.turn }
        ensures turn { IfOk result (λ yes. IsTrue yes → self.new.turn + 1 ≡ self.old.turn) }
        ensures tested { IfOk result (λ yes. IsTrue yes → IsTested wired.now nodes.now self.new) }
    {
        self.turn -= 1;
        let node = nodes.as_slice()[self.turn];
        if !self.come(wired) {
            return Ok(false);
        }
        if !self.is_before(wired, node) {
            return Ok(false);
        }
        if !self.splits(wired, node as usize) {
            return Ok(false);
        }
        self.free.push(node)?;
        Ok(true)
    }
}

/// The class graph of all nodes.
fn whole_graph(alloc: Global, wired: &Wired) -> Result<ClassGraph, AllocError>
    ensures { IfOk result (IsWholeGraph wired.now) }
{
    let nodes = wired.nodes();
    let list = NodeList::all(alloc, nodes as u32)?;
    let set = NodeSet::of(list, Scratch::new(alloc, nodes)?)?;
    let part = Part { wired, nodes: &set };
    let mut graph = ClassGraph::new(alloc);
    graph.list(alloc, &part)?;
    Ok(graph)
}

/// Whether the order is right, by putting its nodes back one by one.
fn is_right(wired: &Wired, start: Left, nodes: &Items<u32>) -> Result<bool, AllocError>
    requires arrivals { AreArrivals wired.now start.growing.edges start.arrivals }
    requires growing { IsGrowing start.growing }
    requires none { start.growing.come ≡ 0 }
    requires turns { AreTurns (length wired.now.nodes) nodes.now start.arrivals.node_turns }
    requires turn { start.turn ≡ length nodes.now }
    requires free { start.free ≡ [] }
    ensures { IfOk result (λ yes. IsTrue yes → IsNodeOrder wired.now nodes.now) }
{
    let mut left = start;
    if !left.come(wired) {
        return Ok(false);
    }
    if !left.is_stuck(wired) {
        return Ok(false);
    }
    while left.turn > 0 {
        if !left.put_back(wired, nodes)? {
            return Ok(false);
        }
    }
    Ok(true)
}

/// Whether these nodes are the order in which deriving takes nodes out: each is the first one, by number, that splits what is left then, and no
/// node splits the rest. Fails if memory runs out. That one order serves all parts is this project's own.
///
/// The contract says what `true` means. That the order itself is never refused is tested, not proved. The time is nearly proportional to the net.
pub fn is_order(alloc: Global, wired: &Wired, nodes: &Items<u32>) -> Result<bool, AllocError>
    ensures { IfOk result (λ yes. IsTrue yes → IsNodeOrder wired.now nodes.now) }
{
    let Some(node_turns) = turns_of(alloc, wired.nodes(), nodes)? else {
        return Ok(false);
    };
    let graph = whole_graph(alloc, wired)?;
    let vertices = graph.count;
    let Some((arrivals, edges)) = list_arrivals(alloc, wired, graph, node_turns, nodes.len())?
    else {
        return Ok(false);
    };
    let growing = Growing::new(alloc, vertices, edges)?;
    let start = Left {
        arrivals,
        growing,
        turn: nodes.len(),
        free: Items::new(alloc),
    };
    is_right(wired, start, nodes)
}
