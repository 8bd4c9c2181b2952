//! The parts that nodes leave, each known by its head: its node whose turn is first.
//!
//! Nodes are put back from the last turn to the first. Each node that is back leads to one with an earlier turn in its component, or to
//! itself, if it is the head. A node that is put back is the new head of the components that it meets, turn by turn at its ports.
ghost use Rattle.std.specs.Prelude.{◌≡◌, ◌+◌, ◌<◌, ◌≤◌, ◌-◌, ◌^◌, ◌↔◌, suc, length, false, IfOk, IsTrue, List, OnOk, ℕ};
ghost use Rattle.in_open_nets.specs.Constructions.{IsIn};
ghost use Rattle.in_open_nets.specs.Members.{nodes_in};
ghost use Rattle.in_open_nets.specs.Parts.{IsFirst, NoneSplits};
ghost use Rattle.in_open_nets.specs.Stuck.{IsListed, ports_of};
ghost use Rattle.in_node_orders.specs.Orders.{all_nodes};
ghost use Rattle.in_simple_deriving.specs.Heads.{AreAlone, AreMetAfter, IsUp, Climbs, LeadsEarlier, IsAtTurn, IsPortAt, IsShorter, MeetsAt, back_to, last_turn, meets_next, meets_to, up_from};
ghost use Rattle.in_simple_deriving.specs.Turns.{NamesPart, IsHeadFrom, IsNodeTurns, headed, is_joined_from, left, node_at, turn_of};

use crate::turns::NodeTurns;
use in_base::use_promise;
use in_open_nets::{OpenPoint, Stuck, Wired};
use sqlite_items::Items;
use std::alloc::{AllocError, Global};
use std::marker::Model;

/// What a node meets at a turn of its own.
#[derive(Clone, Copy)]
pub(crate) enum Met {
    /// A component with this head, for the first time.
    Head(u32),
    /// A component that it has met at an earlier turn.
    Again,
    /// No node, or one that is not back.
    Gone,
}

/// The port that has a turn.
fn port_at(wired: &Wired, node: usize, turn: usize) -> Option<usize>
    requires { node < length wired.now.nodes }
    ensures { IsPortAt wired.now node turn result }
{
    let ports = wired.ports(node);
    if wired.is_agent(node) {
        if turn == ports && ports > 0 {
            Some(0)
        } else if 0 < turn && turn < ports {
            Some(turn)
        } else {
            None
        }
    } else if turn < ports {
        Some(turn)
    } else {
        None
    }
}

/// The node that a climb from this one ends at. Each node on the way then leads past the next one.
fn climb(order: &NodeTurns, up: &mut Items<u32>, from: u32) -> u32
    requires size { length up.old ≡ length order.now.net.nodes }
    requires up { LeadsEarlier order.now.turns up.old }
    requires from { from < length up.old }
    ensures up { LeadsEarlier order.now.turns up.new }
    ensures shorter { IsShorter up.old up.new }
    ensures climbs { Climbs up.old from result }
    ensures top { up_from up.old result ≡ result }
    ensures small { result < length up.old }
{
    let mut at = from;
    let mut above = up.as_slice()[at as usize];
    while above != at {
        let next = up.as_slice()[above as usize];
        up.set(at as usize, next);
        at = next;
        above = up.as_slice()[at as usize];
    }
    at
}

/// Whether the node is in the component with this head of the nodes whose turns are this one or later.
fn is_joined(order: &NodeTurns, up: &mut Items<u32>, turn: usize, node: u32, head: u32) -> bool
    requires up { IsUp order.now turn up.old }
    requires node { node < length order.now.net.nodes }
    requires head { IsHeadFrom order.now turn head }
    ensures up { IsUp order.now turn up.new }
    ensures joined { IsTrue result ↔ IsIn node (is_joined_from order.now turn head) }
{
    if order.turn(node as usize) < turn {
        return false;
    }
    climb(order, up, node) == head
}

/// A node that is put back, as far as the turns before this one go.
struct Meeting<'a> {
    order: &'a NodeTurns<'a>,
    up: Items<u32>,
    node: usize,
    turn: usize,
}

impl<'a> Drop for Meeting<'a> {
    fn drop(self) {
        let Meeting {
            order: _,
            up: _,
            node: _,
            turn: _,
        } = self;
    }
}

impl<'a> Model for Meeting<'a> {
    ghost use Rattle.in_simple_deriving.specs.Heads.{IsMeeting, MeetsTo, meets_to};

    ghost Value = { MeetsTo };

    ghost view = { λ m. meets_to m.order.now m.node m.turn };

    ghost invariant = { λ m. IsMeeting m.order.now m.node m.turn m.up };
}

impl<'a> Meeting<'a> {
    /// MeetsAt nothing at this turn.
    fn pass(self) -> (Meeting<'a>, Met)
        requires none { (l : ℕ) → IsAtTurn self.order.net self.node self.turn l → IsIn l (left self.order (suc (turn_of self.order self.node))) → ⊥ }
        requires few { self.turn ≤ ports_of self.order.net self.node }
        ensures next { result.0 ≡ meets_next self.entry }
        ensures met { MeetsAt self.entry.order self.entry.node self.entry.turn result.1 }
    {
        let Meeting {
            order,
            up,
            node,
            turn,
        } = self;
        use_promise!(order.taken());
        use_promise!(order.wired().ports(node));
        let next = Meeting {
            order,
            up,
            node,
            turn: turn + 1,
        };
        (next, Met::Gone)
    }

    /// MeetsAt the component of a node, if that is back.
    fn meet(self, near: u32) -> (Meeting<'a>, Met)
        requires at { IsAtTurn self.order.net self.node self.turn near }
        requires small { near < length self.order.net.nodes }
        requires few { self.turn ≤ 0x2_0000_0000 }
        ensures next { result.0 ≡ meets_next self.entry }
        ensures met { MeetsAt self.entry.order self.entry.node self.entry.turn result.1 }
    {
        let Meeting {
            order,
            mut up,
            node,
            turn,
        } = self;
        let met = if order.turn(near as usize) <= order.turn(node) {
            Met::Gone
        } else {
            let head = climb(order, &mut up, near);
            if head as usize == node {
                Met::Again
            } else {
                up.set(head as usize, node as u32);
                Met::Head(head)
            }
        };
        let next = Meeting {
            order,
            up,
            node,
            turn: turn + 1,
        };
        (next, met)
    }

    /// MeetsAt what is at the port of this turn.
    fn port(self) -> (Meeting<'a>, Met)
        requires { self.turn ≤ ports_of self.order.net self.node }
        ensures next { result.0 ≡ meets_next self.entry }
        ensures met { MeetsAt self.entry.order self.entry.node self.entry.turn result.1 }
    {
        use_promise!(self.order.taken());
        let wired = self.order.wired();
        match port_at(wired, self.node, self.turn) {
            Some(port) => match wired.partner(self.node, port) {
                (_, OpenPoint::Port(near, _)) => self.meet(near),
                (_, OpenPoint::Free(_)) => self.pass(),
            },
            None => self.pass(),
        }
    }

    /// MeetsAt what is at the ports, turn by turn.
    fn ports(self, met: &mut Items<Met>) -> Result<Meeting<'a>, AllocError>
        requires { self.turn ≡ 0 }
        ensures next { IfOk result (λ next. next ≡ meets_to self.entry.order self.entry.node (suc (ports_of self.entry.order.net self.entry.node))) }
        ensures met { OnOk result (AreMetAfter self.entry.order self.entry.node met.old (suc (ports_of self.entry.order.net self.entry.node)) met.new) }
    {
        let ports = self.order.wired().ports(self.node);
        let mut meeting = self;
        for port in 0..ports + 1 {
            let (next, found) = meeting.port();
            met.push(found)?;
            meeting = next;
        }
        Ok(meeting)
    }

    /// MeetsAt each node of the net after the ports.
    fn others(self, met: &mut Items<Met>) -> Result<Meeting<'a>, AllocError>
        requires { self.turn ≡ suc (ports_of self.order.net self.node) }
        ensures next { IfOk result (λ next. next ≡ meets_to self.entry.order self.entry.node (suc (ports_of self.entry.order.net self.entry.node) + length self.entry.order.net.nodes)) }
        ensures met { OnOk result ((old : List Met) → AreMetAfter self.entry.order self.entry.node old (suc (ports_of self.entry.order.net self.entry.node)) met.old → AreMetAfter self.entry.order self.entry.node old (suc (ports_of self.entry.order.net self.entry.node) + length self.entry.order.net.nodes) met.new) }
    {
        let count = self.order.wired().nodes();
        let mut meeting = self;
        for near in 0..count {
            let (next, found) = meeting.meet(near as u32);
            met.push(found)?;
            meeting = next;
        }
        Ok(meeting)
    }

    /// MeetsAt all that it may meet.
    fn all(self, met: &mut Items<Met>) -> Result<Meeting<'a>, AllocError>
        requires { self.turn ≡ 0 }
        ensures next { IfOk result (λ next. next ≡ meets_to self.entry.order self.entry.node (last_turn self.entry.order self.entry.node)) }
        ensures met { OnOk result (AreMetAfter self.entry.order self.entry.node met.old (last_turn self.entry.order self.entry.node) met.new) }
    {
        let is_first = self.order.turn(self.node) == 0;
        let touched = self.ports(met)?;
        if is_first {
            touched.others(met)
        } else {
            Ok(touched)
        }
    }

    /// Where each node leads, once the node has met all that it may meet.
    fn into_up(self) -> Items<u32>
        requires { self.turn ≡ last_turn self.order self.node }
        ensures { 0 < turn_of self.entry.order self.entry.node → IsUp self.entry.order (turn_of self.entry.order self.entry.node) result }
    {
        use_promise!(self.order.taken());
        let Meeting {
            order: _,
            up,
            node: _,
            turn: _,
        } = self;
        up
    }
}

/// The nodes that are back, those whose turns are this one or later, and what each of them met.
struct PutBack<'a> {
    order: &'a NodeTurns<'a>,
    up: Items<u32>,
    turn: usize,
    first: Items<u32>,
    met: Items<Met>,
}

impl<'a> Drop for PutBack<'a> {
    fn drop(self) {
        let PutBack {
            order: _,
            up: _,
            turn: _,
            first: _,
            met: _,
        } = self;
    }
}

/// `count` zeros.
fn zeros(alloc: Global, count: usize) -> Result<Items<u32>, AllocError>
    ensures { IfOk result (λ zeros. length zeros ≡ count) }
{
    let mut zeros = Vec::new(alloc);
    zeros.resize(count, 0)?;
    Ok(Items::from_vec(zeros))
}

/// Each of `count` nodes leads to itself.
fn alone(alloc: Global, count: usize) -> Result<Items<u32>, AllocError>
    requires { count < 2 ^ 32 }
    ensures { IfOk result (AreAlone count) }
{
    let mut up = Items::new(alloc);
    for node in 0..count {
        up.push(node as u32)?;
    }
    Ok(up)
}

impl<'a> Model for PutBack<'a> {
    ghost use Rattle.std.specs.Prelude.{◌<◌, ◌≤◌, length};
    ghost use Rattle.in_simple_deriving.specs.Heads.{AreHeads, IsUp, PutBackTo, back_to};

    ghost Value = { PutBackTo };

    ghost view = { λ b. back_to b.order.now b.turn };

    ghost invariant = { λ b. (b.turn ≤ length b.order.now.nodes) × (0 < b.turn → IsUp b.order.now b.turn b.up) × AreHeads b.order.now b.turn b.first b.met };
}

impl<'a> PutBack<'a> {
    /// No node is back.
    fn none(alloc: Global, order: &'a NodeTurns<'a>) -> Result<PutBack<'a>, AllocError>
        ensures { IfOk result (λ back. back ≡ back_to order.now (length order.now.nodes)) }
    {
        let count = order.wired().nodes();
        use_promise!(order.taken());
        Ok(PutBack {
            order,
            up: alone(alloc, count)?,
            turn: order.turns(),
            first: zeros(alloc, count)?,
            met: Items::new(alloc),
        })
    }

    /// Puts the next node back.
    fn next(self) -> Result<PutBack<'a>, AllocError>
        requires { 0 < self.turn }
        ensures { IfOk result (λ back. back ≡ back_to self.entry.order (self.entry.turn - 1)) }
    {
        let PutBack {
            order,
            mut up,
            turn,
            mut first,
            mut met,
        } = self;
        let node = order.node(turn - 1) as usize;
        let start = met.len();
        if start > u32::MAX as usize {
            return Err(AllocError);
        }
        first.set(node, start as u32);
        up.set(node, node as u32);
        let meeting = Meeting {
            order,
            up,
            node,
            turn: 0,
        };
        let up = meeting.all(&mut met)?.into_up();
        Ok(PutBack {
            order,
            up,
            turn: turn - 1,
            first,
            met,
        })
    }

    /// Puts the nodes with turns from this one on back.
    fn until(
        alloc: Global,
        order: &'a NodeTurns<'a>,
        turn: usize,
    ) -> Result<PutBack<'a>, AllocError>
        requires { turn ≤ length order.now.nodes }
        ensures { IfOk result (λ back. back ≡ back_to order.now turn) }
    {
        let mut back = PutBack::none(alloc, order)?;
        for node in turn..order.turns() {
            back = back.next()?;
        }
        Ok(back)
    }

    /// The nodes of the component with this head.
    fn component(self, alloc: Global, head: u32) -> Result<Stuck, AllocError>
        requires some { 0 < self.turn }
        requires head { IsHeadFrom self.order self.turn head }
        ensures { IfOk result (λ stuck. IsListed (is_joined_from self.entry.order self.entry.turn head) stuck.nodes) }
    {
        let PutBack {
            order,
            mut up,
            turn,
            first: _,
            met: _,
        } = self;
        let mut nodes = Items::new(alloc);
        for node in 0..order.wired().nodes() {
            if is_joined(order, &mut up, turn, node as u32, head) {
                nodes.push(node as u32)?;
            }
        }
        Ok(Stuck { nodes })
    }

    /// What each node met.
    fn into_heads(self) -> Heads<'a>
        requires { self.turn ≡ 0 }
        ensures { result ≡ self.entry.order }
    {
        let PutBack {
            order,
            up: _,
            turn: _,
            first,
            met,
        } = self;
        Heads { order, first, met }
    }
}

/// What each node meets at its turns among the nodes with later turns.
pub(crate) struct Heads<'a> {
    order: &'a NodeTurns<'a>,
    first: Items<u32>,
    met: Items<Met>,
}

// By hand, so that each drop is a call: a derived one is written out in each proof, at each way out.
impl<'a> Drop for Heads<'a> {
    fn drop(self) {
        let Heads {
            order: _,
            first: _,
            met: _,
        } = self;
    }
}

// Contracts see the order.
impl<'a> Model for Heads<'a> {
    ghost use Rattle.in_simple_deriving.specs.Heads.{AreHeads};
    ghost use Rattle.in_simple_deriving.specs.Turns.{NodeOrder};

    ghost Value = { NodeOrder };

    ghost view = { λ h. h.order.now };

    ghost invariant = { λ h. AreHeads h.order.now 0 h.first h.met };
}

impl<'a> Heads<'a> {
    /// Puts all nodes back.
    pub(crate) fn of(alloc: Global, order: &'a NodeTurns<'a>) -> Result<Heads<'a>, AllocError>
        ensures { IfOk result (λ heads. heads ≡ order.now) }
    {
        Ok(PutBack::until(alloc, order, 0)?.into_heads())
    }

    /// The order of the nodes.
    pub(crate) fn order(&self) -> &'a NodeTurns<'a>
        ensures { result.now ≡ self.now }
    {
        self.order
    }

    /// What the node meets at a turn.
    pub(crate) fn met(&self, node: usize, turn: usize) -> Met
        requires node { node < length self.now.net.nodes }
        requires turn { turn < last_turn self.now node }
        ensures met { MeetsAt self.now node turn result }
        ensures turns { IsNodeTurns self.now }
    {
        use_promise!(self.order.taken());
        self.met.as_slice()[self.first.as_slice()[node] as usize + turn]
    }
}

/// All nodes of the net.
fn all_of(alloc: Global, order: &NodeTurns) -> Result<Stuck, AllocError>
    ensures { IfOk result (λ stuck. IsListed (all_nodes order.now.net) stuck.nodes) }
{
    let mut nodes = Items::new(alloc);
    for node in 0..order.wired().nodes() {
        nodes.push(node as u32)?;
    }
    Ok(Stuck { nodes })
}

/// A part, by its head.
pub(crate) struct Headed<'a> {
    heads: &'a Heads<'a>,
    head: u32,
}

// By hand, so that each drop is a call: a derived one is written out in each proof, at each way out.
impl<'a> Drop for Headed<'a> {
    fn drop(self) {
        let Headed { heads: _, head: _ } = self;
    }
}

// Contracts see the nodes.
impl<'a> Model for Headed<'a> {
    ghost use Rattle.in_simple_deriving.specs.Turns.{HeadedPart, NamesPart, headed};

    ghost Value = { HeadedPart };

    ghost view = { λ h. headed h.heads.now h.head };

    ghost invariant = { λ h. NamesPart h.heads.now h.head };
}

impl<'a> Headed<'a> {
    /// The part with this head.
    pub(crate) fn of(heads: &'a Heads<'a>, head: u32) -> Headed<'a>
        requires { NamesPart heads.now head }
        ensures { result ≡ headed heads.now head }
    {
        Headed { heads, head }
    }

    /// All nodes of a net that has some.
    pub(crate) fn whole(heads: &'a Heads<'a>) -> Headed<'a>
        requires { 0 < length heads.now.net.nodes }
        ensures net { result.net ≡ heads.now.net }
        ensures size { length result.nodes ≡ length heads.now.net.nodes }
        ensures all { (n : ℕ) → n < length heads.now.net.nodes → IsIn n (nodes_in result.nodes) }
    {
        let order = heads.order();
        use_promise!(order.taken());
        Headed {
            heads,
            head: order.node(0),
        }
    }

    /// What the nodes meet, and the head.
    pub(crate) fn apart(self) -> (&'a Heads<'a>, usize)
        ensures part { self.entry ≡ headed result.0.now result.1 }
        ensures head { NamesPart result.0.now result.1 }
    {
        let Headed { heads, head } = self;
        (heads, head as usize)
    }

    /// Whether the head is taken out of the part. Otherwise no node splits it.
    pub(crate) fn is_taken_apart(&self) -> bool
        ensures first { IsTrue result → IsFirst self.now.net self.now.nodes self.now.head }
        ensures stuck { result ≡ false → NoneSplits self.now.net self.now.nodes (length self.now.net.nodes) }
    {
        let order = self.heads.order();
        order.turn(self.head as usize) < order.taken()
    }

    /// The nodes of a part that no node splits.
    pub(crate) fn stuck(self, alloc: Global) -> Result<Stuck, AllocError>
        requires { NoneSplits self.net self.nodes (length self.net.nodes) }
        ensures { IfOk result (λ stuck. IsListed (nodes_in self.entry.nodes) stuck.nodes) }
    {
        let Headed { heads, head } = self;
        let order = heads.order();
        let first = order.turn(head as usize);
        if first == 0 {
            all_of(alloc, order)
        } else {
            PutBack::until(alloc, order, order.taken())?.component(alloc, head)
        }
    }
}
