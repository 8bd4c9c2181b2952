//! One order of all nodes, by which all parts are taken apart, and the turn of each node in it.
ghost use Rattle.std.specs.Prelude.{◌≡◌, ◌<◌, ◌≤◌, ◌^◌, length, IfOk, IsTrue, ℕ};
ghost use Rattle.in_node_orders.specs.Orders.{IsNodeOrder};
ghost use Rattle.in_open_nets.specs.OpenNets.{IsOrderly};
ghost use Rattle.in_open_nets.specs.Parts.{IsFirstIn};
ghost use Rattle.in_simple_deriving.specs.Turns.{AreAllFrom, IsNodeTurns, node_at, turn_of};
ghost use Rattle.in_node_orders.specs.Turns.{AreDistinct, AreTurns};

use in_base::use_promise;
use in_node_orders::{is_order, turns_of};
use in_open_nets::{ClassGraph, NodeList, NodeSet, Part, Scratch, Wired, first_splitting};
use in_order_search::likely_order;
use in_syntax::with_room;
use sqlite_items::Items;
use std::alloc::{AllocError, Global};
use std::marker::Model;

/// The first node that splits what is left.
fn first_left(
    alloc: Global,
    wired: &Wired,
    left: &NodeSet,
    graph: &mut ClassGraph,
) -> Result<Option<usize>, AllocError>
    requires { length left.now ≡ length wired.now.nodes }
    ensures net { IfOk result (λ found. IsOrderly wired.now) }
    ensures found { IfOk result (IsFirstIn wired.now left.now) }
{
    let part = Part { wired, nodes: left };
    first_splitting(alloc, &part, graph)
}

/// The nodes that are taken out of the whole net in turn, each of them the first one that splits what is left, found one by one, in time in
/// proportion to the square of the net. Fails if memory runs out. `derive` calls this only after a wrong guess.
pub fn found_order(alloc: Global, wired: &Wired) -> Result<Items<u32>, AllocError>
    ensures { IfOk result (IsNodeOrder wired.now) }
{
    let count = wired.nodes();
    let mut graph = ClassGraph::new(alloc);
    let mut left = NodeSet::of(
        NodeList::all(alloc, count as u32)?,
        Scratch::new(alloc, count)?,
    )?;
    let mut order = Items::new(alloc);
    while let Some(node) = first_left(alloc, wired, &left, &mut graph)? {
        order.push(node as u32)?;
        let (rest, _) = left.without(alloc, node)?;
        left = rest;
    }
    Ok(order)
}

/// The same. The order is guessed, and found one by one only if the guess is wrong.
fn node_order(alloc: Global, wired: &Wired) -> Result<Items<u32>, AllocError>
    ensures { IfOk result (IsNodeOrder wired.now) }
{
    let guess = likely_order(alloc, wired)?;
    if is_order(alloc, wired, &guess)? {
        return Ok(guess);
    }
    found_order(alloc, wired)
}

/// All nodes in the order in which they are taken out, then those that are never taken out, by number; and the turn of each node.
pub(crate) struct NodeTurns<'a> {
    wired: &'a Wired<'a>,
    nodes: Items<u32>,
    turns: Items<usize>,
    taken: usize,
}

// By hand, so that each drop is a call: a derived one is written out in each proof, at each way out.
impl<'a> Drop for NodeTurns<'a> {
    fn drop(self) {
        let NodeTurns {
            wired: _,
            nodes: _,
            turns: _,
            taken: _,
        } = self;
    }
}

// Contracts see the order.
impl<'a> Model for NodeTurns<'a> {
    ghost use Rattle.in_simple_deriving.specs.Turns.{IsNodeTurns, NodeOrder};

    ghost Value = { NodeOrder };

    ghost view = { λ x. record { net = x.wired.now; nodes = x.nodes; turns = x.turns; taken = x.taken } };

    ghost invariant = { λ x. IsNodeTurns (record { net = x.wired.now; nodes = x.nodes; turns = x.turns; taken = x.taken }) };
}

/// The turn of each node, by its index in these nodes.
fn distinct_turns(
    alloc: Global,
    count: usize,
    nodes: &Items<u32>,
) -> Result<Items<usize>, AllocError>
    requires { AreDistinct count nodes.now }
    ensures { IfOk result (AreTurns count nodes.now) }
{
    match turns_of(alloc, count, nodes)? {
        Some(turns) => Ok(turns),
        // Each node comes once, by the requirement.
        None => unreachable!(),
    }
}

/// These nodes, and then all others, by number.
fn with_others(alloc: Global, count: usize, first: Items<u32>) -> Result<Items<u32>, AllocError>
    requires few { count < 2 ^ 32 }
    requires first { AreDistinct count first }
    ensures { IfOk result (AreAllFrom count first) }
{
    let taken = first.len();
    let found = distinct_turns(alloc, count, &first)?;
    let turns = found.as_slice();
    let mut nodes = first;
    for node in 0..count {
        if turns[node] == taken {
            nodes.push(node as u32)?;
        }
    }
    Ok(nodes)
}

impl<'a> NodeTurns<'a> {
    /// The order of the nodes of an open net.
    pub(crate) fn of(alloc: Global, wired: &'a Wired<'a>) -> Result<NodeTurns<'a>, AllocError>
        ensures { IfOk result (λ turns. turns.net ≡ wired.now) }
    {
        let count = wired.nodes();
        let order = node_order(alloc, wired)?;
        let taken = order.len();
        let nodes = with_others(alloc, count, order)?;
        let turns = distinct_turns(alloc, count, &nodes)?;
        Ok(NodeTurns {
            wired,
            nodes,
            turns,
            taken,
        })
    }

    /// The open net, with its wires by port.
    pub(crate) fn wired(&self) -> &'a Wired<'a>
        ensures { result.now ≡ self.now.net }
    {
        self.wired
    }

    /// How many nodes are taken out in turn.
    pub(crate) fn taken(&self) -> usize
        ensures taken { result ≡ self.now.taken }
        ensures turns { IsNodeTurns self.now }
    {
        self.taken
    }

    /// How many turns there are.
    pub(crate) fn turns(&self) -> usize
        ensures { result ≡ length self.now.nodes }
    {
        self.nodes.len()
    }

    /// The node that has this turn.
    pub(crate) fn node(&self, turn: usize) -> u32
        requires { turn < length self.now.nodes }
        ensures node { result ≡ node_at self.now turn }
        ensures turns { IsNodeTurns self.now }
    {
        self.nodes.as_slice()[turn]
    }

    /// The turn of a node.
    pub(crate) fn turn(&self, node: usize) -> usize
        requires { node < length self.now.net.nodes }
        ensures turn { result ≡ turn_of self.now node }
        ensures turns { IsNodeTurns self.now }
    {
        self.turns.as_slice()[node]
    }
}
