ghost use Rattle.std.specs.Prelude.{◌≡◌, ◌↔◌, ◌+◌, ◌<◌, ℕ, ◌⊎◌, length, false, None, Some, IsTrue, IfOk, OnOk};
ghost use Rattle.in_simple.specs.Checking.{AreAll, AreBeside, AreGathered, AreRefused, AreSizedBuilt, HasClassBuilt, HasFreeEnds, IsClassRefused, IsClassTaken, IsFrom, IsGraftedTo, IsInClass, IsJoint, IsLastBuilt, IsLed, IsNothing, IsOpenAt, IsSizedBuilt, IsSum, IsWholeNet, LacksSome, OnAlone, OnGraftEnd, OnGraftWire, OnPair, OnStep, OnTaken, ShareOne, SharesNodes, SaysWhich, ends_at, left_at};
ghost use Rattle.in_open_nets.specs.Members.{IsUnion, nodes_in};
ghost use Rattle.in_open_nets.specs.declared.derivations.Step.TheVariants.{Cut, Given, Graft, Link, Mix};
ghost use Rattle.in_open_nets.specs.Derivations.{IsDerivation, is_auxiliary, is_free, is_port_in, is_principal};
ghost use Rattle.in_open_nets.specs.OpenNets.{IsAgent, IsClass, IsOrderly, IsOpenPoint, classes_of};

use crate::sets::NumberSet;
use in_open_nets::{Derivation, OpenNet, OpenPoint, Step};
use sqlite_items::Items;
use std::alloc::{AllocError, Global};

/// The net that a step builds: its nodes, the wires of its Links, and for each wire how many open ends it has for the two points.
pub(crate) struct Built {
    pub(crate) nodes: NumberSet,
    pub(crate) links: NumberSet,
    pub(crate) ends: Items<(u32, u32)>,
}

// By hand, so that each drop is a call: a derived one is written out in each proof, at each way out.
impl Drop for Built {
    fn drop(self) {
        let Built {
            nodes: _,
            links: _,
            ends: _,
        } = self;
    }
}

/// No end.
fn no_ends(alloc: Global, count: usize) -> Result<Items<(u32, u32)>, AllocError>
    ensures count { IfOk result (λ ends. length ends ≡ count) }
    ensures none { IfOk result (λ ends. (w : ℕ) → ends_at ends w ≡ (0, 0)) }
{
    let mut ends = Items::new(alloc);
    for wire in 0..count {
        ends.push((0, 0))?;
    }
    Ok(ends)
}

/// Nothing.
fn nothing(alloc: Global, open: &OpenNet) -> Result<Built, AllocError>
    ensures { IfOk result (IsNothing «open».now) }
{
    let wires = open.wires();
    Ok(Built {
        nodes: NumberSet::none(alloc, open.nodes() as usize)?,
        links: NumberSet::none(alloc, wires)?,
        ends: no_ends(alloc, wires)?,
    })
}

/// The sum of two numbers of ends. If there are too many to count, it is out of memory.
fn sum_of(one: u32, other: u32) -> Result<u32, AllocError>
    ensures { IfOk result (λ sum. sum ≡ one + other) }
{
    match one.checked_add(other) {
        Some(sum) => Ok(sum),
        None => Err(AllocError),
    }
}

/// Adds the numbers of ends.
fn add_ends(more: &Items<(u32, u32)>, ends: &mut Items<(u32, u32)>) -> Result<(), AllocError>
    requires { length more.now ≡ length ends.old }
    ensures size { length ends.new ≡ length ends.old }
    ensures sum { OnOk result (IsSum more.now ends.old ends.new) }
{
    for wire in 0..more.len() {
        let (more_first, more_second) = more.as_slice()[wire];
        let (first, second) = ends.as_slice()[wire];
        ends.set(
            wire,
            (sum_of(more_first, first)?, sum_of(more_second, second)?),
        );
    }
    Ok(())
}

/// Puts one net beside another, or returns that they share a node or a Link.
fn beside(open: &OpenNet, more: &Built, built: &mut Built) -> Result<bool, AllocError>
    requires more { IsSizedBuilt «open».now more.now }
    requires built { IsSizedBuilt «open».now built.old }
    ensures sized { IsSizedBuilt «open».now built.new }
    ensures beside { IfOk result (λ yes. SaysWhich yes (AreBeside more.now built.old built.new) (ShareOne more.now built.old)) }
{
    if more.nodes.shares(&built.nodes) {
        return Ok(false);
    }
    if more.links.shares(&built.links) {
        return Ok(false);
    }
    built.nodes.unite(&more.nodes);
    built.links.unite(&more.links);
    add_ends(&more.ends, &mut built.ends)?;
    Ok(true)
}

/// 1 for a port of one of these nodes.
fn port_in(nodes: &NumberSet, point: OpenPoint) -> u32
    ensures { result ≡ is_port_in (nodes_in nodes.now) point }
{
    match point {
        OpenPoint::Port(node, _) => u32::from(nodes.has(node as usize)),
        OpenPoint::Free(_) => 0,
    }
}

/// 1 for the node's principal port.
fn principal(node: u32, point: OpenPoint) -> u32
    ensures { result ≡ is_principal node point }
{
    match point {
        OpenPoint::Port(owner, place) => { if place == 0 && node == owner { 1 } else { 0 } }
        OpenPoint::Free(_) => 0,
    }
}

/// 1 for another port of the node.
fn auxiliary(node: u32, point: OpenPoint) -> u32
    ensures { result ≡ is_auxiliary node point }
{
    match point {
        OpenPoint::Port(owner, place) => { if place != 0 && node == owner { 1 } else { 0 } }
        OpenPoint::Free(_) => 0,
    }
}

/// 1 for a free end.
fn free(point: OpenPoint) -> u32
    ensures { result ≡ is_free point }
{
    match point {
        OpenPoint::Port(_, _) => 0,
        OpenPoint::Free(_) => 1,
    }
}

/// A wire by itself.
fn link(alloc: Global, open: &OpenNet, wire: u32) -> Result<Option<Built>, AllocError>
    ensures { IfOk result (OnAlone «open».now (Link wire)) }
{
    let number = wire as usize;
    if number < open.wires() {
        let mut built = nothing(alloc, open)?;
        built.links.insert(number);
        built.ends.set(number, (1, 1));
        Ok(Some(built))
    } else {
        Ok(None)
    }
}

/// An end for each far point of a wire at one of these nodes.
fn lead(open: &OpenNet, nodes: &NumberSet, ends: &mut Items<(u32, u32)>)
    requires { length ends.old ≡ length «open».now.wires }
    ensures size { length ends.new ≡ length ends.old }
    ensures led { IsLed «open».now (nodes_in nodes.now) ends.new (length «open».now.wires) }
{
    for wire in 0..open.wires() {
        let (one, other) = open.wire(wire);
        ends.set(wire, (port_in(nodes, other), port_in(nodes, one)));
    }
}

/// Whether there is a class node of that number.
fn is_class_node(open: &OpenNet, node: u32) -> bool
    ensures within { IsTrue result → node < length «open».now.nodes }
    ensures class { IsTrue result ↔ IsClass «open».now node }
{
    node < open.nodes() && !open.is_agent(node as usize)
}

/// A class node.
fn given(alloc: Global, open: &OpenNet, node: u32) -> Result<Option<Built>, AllocError>
    ensures { IfOk result (OnAlone «open».now (Given node)) }
{
    if is_class_node(open, node) {
        let mut built = nothing(alloc, open)?;
        built.nodes.insert(node as usize);
        lead(open, &built.nodes, &mut built.ends);
        Ok(Some(built))
    } else {
        Ok(None)
    }
}

/// Whether a point is a port of these nodes, and there are ends for the far point and for it.
fn is_from(nodes: &NumberSet, point: OpenPoint, far: u32, near: u32) -> bool
    ensures { IsTrue result ↔ IsFrom nodes.now point far near }
{
    port_in(nodes, point) == 1 && far > 0 && near > 0
}

/// Whether one net has the port at an end of the wire, and each net has an end for the other's point.
fn is_joint(open: &OpenNet, wire: usize, a: &Built, b: &Built) -> bool
    requires wire { wire < length «open».now.wires }
    requires a { IsSizedBuilt «open».now a.now }
    requires b { IsSizedBuilt «open».now b.now }
    ensures { IsTrue result ↔ IsJoint «open».now wire a.now b.now }
{
    let (one, other) = open.wire(wire);
    let (a_first, a_second) = a.ends.as_slice()[wire];
    let (b_first, b_second) = b.ends.as_slice()[wire];
    is_from(&a.nodes, one, a_second, b_first) || is_from(&a.nodes, other, a_first, b_second)
}

/// Joins one net to another along a wire, if they can be joined.
fn join_along(open: &OpenNet, wire: u32, a: &Built, built: &mut Built) -> Result<bool, AllocError>
    requires a { IsSizedBuilt «open».now a.now }
    requires built { IsSizedBuilt «open».now built.old }
    ensures { IfOk result (λ yes. SaysWhich yes (OnPair «open».now (Cut wire) a.now built.old (Some built.new)) (OnPair «open».now (Cut wire) a.now built.old None)) }
{
    let number = wire as usize;
    if number >= open.wires() {
        return Ok(false);
    }
    if !is_joint(open, number, a, built) {
        return Ok(false);
    }
    if beside(open, a, built)? {
        let (first, second) = built.ends.as_slice()[number];
        built.ends.set(number, (first - 1, second - 1));
        Ok(true)
    } else {
        Ok(false)
    }
}

/// Two nets joined along a wire.
fn cut(open: &OpenNet, wire: u32, a: Built, b: Built) -> Result<Option<Built>, AllocError>
    requires a { IsSizedBuilt «open».now a }
    requires b { IsSizedBuilt «open».now b }
    ensures { IfOk result (OnPair «open».now (Cut wire) a b) }
{
    let mut built = b;
    if join_along(open, wire, &a, &mut built)? {
        Ok(Some(built))
    } else {
        Ok(None)
    }
}

/// Two nets side by side.
fn mix(open: &OpenNet, a: Built, b: Built) -> Result<Option<Built>, AllocError>
    requires a { IsSizedBuilt «open».now a }
    requires b { IsSizedBuilt «open».now b }
    ensures { IfOk result (OnPair «open».now Mix a b) }
{
    let mut built = b;
    if beside(open, &a, &mut built)? {
        Ok(Some(built))
    } else {
        Ok(None)
    }
}

/// How many ends for a point are left when the node is joined to one end for its auxiliary port, and its principal port at the
/// far point is open; none, if there is no end to join it to.
fn graft_end(
    count: u32,
    point: OpenPoint,
    far: OpenPoint,
    node: u32,
) -> Result<Option<u32>, AllocError>
    ensures { IfOk result (OnGraftEnd node point far count) }
{
    let sum = sum_of(count, principal(node, far))?;
    let less = auxiliary(node, point);
    if less <= sum {
        Ok(Some(sum - less))
    } else {
        Ok(None)
    }
}

/// The same for both points of a wire.
fn graft_wire(
    ends: (u32, u32),
    one: OpenPoint,
    other: OpenPoint,
    node: u32,
) -> Result<Option<(u32, u32)>, AllocError>
    ensures { IfOk result (OnGraftWire node one other ends) }
{
    match graft_end(ends.0, one, other, node)? {
        Some(first) => match graft_end(ends.1, other, one, node)? {
            Some(second) => Ok(Some((first, second))),
            None => Ok(None),
        },
        None => Ok(None),
    }
}

/// The node's auxiliary ports are joined to the ends for them, and its principal port is open.
fn graft_ends(open: &OpenNet, ends: &mut Items<(u32, u32)>, node: u32) -> Result<bool, AllocError>
    requires { length ends.old ≡ length «open».now.wires }
    ensures size { length ends.new ≡ length ends.old }
    ensures grafted { IfOk result (λ yes. SaysWhich yes (IsGraftedTo «open».now node ends.old ends.new (length «open».now.wires)) (LacksSome «open».now node ends.old)) }
{
    for wire in 0..open.wires() {
        let (one, other) = open.wire(wire);
        if let Some(left) = graft_wire(ends.as_slice()[wire], one, other, node)? {
            ends.set(wire, left);
        } else {
            return Ok(false);
        }
    }
    Ok(true)
}

/// The net of an earlier step, if no step named it before.
fn taken(parts: &mut Vec<Option<Built>>, step: u32) -> Option<Built>
    ensures { OnTaken step parts.old.items parts.new.items result }
{
    let number = step as usize;
    if number < parts.len() {
        parts[number].take()
    } else {
        None
    }
}

/// Whether there is an agent of that number, with `classes` classes of auxiliary ports.
fn is_agent_with(open: &OpenNet, node: u32, classes: usize) -> bool
    ensures within { IsTrue result → node < length «open».now.nodes }
    ensures agent { IsTrue result ↔ (IsAgent «open».now node × (classes ≡ classes_of «open».now node)) }
{
    node < open.nodes() && open.is_agent(node as usize) && classes == open.classes(node as usize)
}

/// The agent of a graft: a node of the open net.
#[derive(Clone, Copy)]
struct Root<'a> {
    net: &'a OpenNet,
    node: u32,
    ghost within: { node < length net.now.nodes },
}

impl<'a> Root<'a> {
    /// Whether a point is a port of the node in this class.
    fn has_in_class(&self, point: OpenPoint, class: usize) -> bool
        requires { IsOpenPoint self.now.net.now point }
        ensures { IsTrue result ↔ IsInClass self.now.net.now self.now.node class point }
    {
        match point {
            OpenPoint::Port(owner, place) => {
                owner == self.node && self.net.class(owner as usize, place as usize) == class
            }
            OpenPoint::Free(_) => false,
        }
    }

    /// Whether there is an end for the point, if it is a port of the node in this class.
    fn is_open_for(&self, point: OpenPoint, count: u32, class: usize) -> bool
        requires { IsOpenPoint self.now.net.now point }
        ensures { IsTrue result ↔ (IsInClass self.now.net.now self.now.node class point → 0 < count) }
    {
        count > 0 || !self.has_in_class(point, class)
    }

    /// The same for both points of a wire.
    fn is_open_at(&self, wire: usize, ends: (u32, u32), class: usize) -> bool
        requires net { IsOrderly self.now.net.now }
        requires wire { wire < length self.now.net.now.wires }
        ensures { IsTrue result ↔ IsOpenAt self.now.net.now self.now.node class wire ends }
    {
        let (one, other) = self.net.wire(wire);
        self.is_open_for(one, ends.0, class) && self.is_open_for(other, ends.1, class)
    }

    /// Whether there is an end for each port of the node in this class.
    fn has_class(&self, built: &Built, class: usize) -> bool
        requires { IsSizedBuilt self.now.net.now built.now }
        ensures { IsTrue result ↔ HasClassBuilt self.now.net.now self.now.node class built.now }
    {
        for wire in 0..self.net.wires() {
            if !self.is_open_at(wire, built.ends.as_slice()[wire], class) {
                return false;
            }
        }
        true
    }

    /// Puts one net beside another, if it has an end for each port of a class.
    fn put_class(&self, more: &Built, built: &mut Built, class: usize) -> Result<bool, AllocError>
        requires more { IsSizedBuilt self.now.net.now more.now }
        requires built { IsSizedBuilt self.now.net.now built.old }
        ensures sized { IsSizedBuilt self.now.net.now built.new }
        ensures class { IfOk result (λ yes. IsTrue yes → HasClassBuilt self.now.net.now self.now.node class more.now) }
        ensures beside { IfOk result (λ yes. IsTrue yes → AreBeside more.now built.old built.new) }
        ensures refused { IfOk result (λ yes. yes ≡ false → (HasClassBuilt self.now.net.now self.now.node class more.now → ⊥) ⊎ ShareOne more.now built.old) }
    {
        if self.has_class(more, class) {
            let apart = beside(self.net, more, built)?;
            Ok(apart)
        } else {
            Ok(false)
        }
    }

    /// One more class of a graft, beside the later ones.
    fn take_class(
        &self,
        parts: &mut Vec<Option<Built>>,
        built: &mut Built,
        step: u32,
        class: usize,
    ) -> Result<bool, AllocError>
        requires parts { AreSizedBuilt self.now.net.now parts.old.items }
        requires built { IsSizedBuilt self.now.net.now built.old }
        ensures sized { IsSizedBuilt self.now.net.now built.new }
        ensures answer { IfOk result (λ yes. SaysWhich yes (IsClassTaken self.now.net.now self.now.node class step parts.old.items parts.new.items built.old built.new) (IsClassRefused self.now.net.now self.now.node class step parts.old.items built.old)) }
    {
        match taken(parts, step) {
            Some(more) => {
                let apart = self.put_class(&more, built, class)?;
                Ok(apart)
            }
            None => Ok(false),
        }
    }

    /// The classes of a graft side by side, the last one first.
    fn take_classes(
        &self,
        parts: &mut Vec<Option<Built>>,
        built: &mut Built,
        steps: &[u32],
    ) -> Result<bool, AllocError>
        requires parts { AreSizedBuilt self.now.net.now parts.old.items }
        requires built { IsNothing self.now.net.now built.old }
        ensures sized { IsSizedBuilt self.now.net.now built.new }
        ensures answer { IfOk result (λ yes. SaysWhich yes (AreGathered self.now.net.now self.now.node 0 steps.now parts.old.items parts.new.items built.new) (AreRefused self.now.net.now self.now.node 0 steps.now parts.old.items)) }
    {
        let mut class = steps.len();
        while class > 0 {
            if !self.take_class(parts, built, steps[class - 1], class)? {
                return Ok(false);
            }
            class -= 1;
        }
        Ok(true)
    }

    /// Joins an agent to the steps of its classes, if it can be.
    fn graft(
        &self,
        parts: &mut Vec<Option<Built>>,
        built: &mut Built,
        steps: &Items<u32>,
    ) -> Result<bool, AllocError>
        requires parts { AreSizedBuilt self.now.net.now parts.old.items }
        requires built { IsNothing self.now.net.now built.old }
        requires agent { IsAgent self.now.net.now self.now.node × (length steps.now ≡ classes_of self.now.net.now self.now.node) }
        ensures { IfOk result (λ yes. SaysWhich yes (OnStep self.now.net.now (Graft self.now.node steps.now) parts.old.items parts.new.items (Some built.new)) (OnStep self.now.net.now (Graft self.now.node steps.now) parts.old.items parts.new.items None)) }
    {
        let number = self.node as usize;
        if !self.take_classes(parts, built, steps.as_slice())? {
            return Ok(false);
        }
        if built.nodes.has(number) {
            return Ok(false);
        }
        built.nodes.insert(number);
        if graft_ends(self.net, &mut built.ends, self.node)? {
            Ok(true)
        } else {
            Ok(false)
        }
    }
}

/// An agent, joined to the steps of its classes.
fn graft(
    alloc: Global,
    open: &OpenNet,
    parts: &mut Vec<Option<Built>>,
    node: u32,
    steps: &Items<u32>,
) -> Result<Option<Built>, AllocError>
    requires { AreSizedBuilt «open».now parts.old.items }
    ensures { IfOk result (OnStep «open».now (Graft node steps.now) parts.old.items parts.new.items) }
{
    if !is_agent_with(open, node, steps.as_slice().len()) {
        return Ok(None);
    }
    let mut built = nothing(alloc, open)?;
    let root = Root { net: open, node };
    if root.graft(parts, &mut built, steps)? {
        Ok(Some(built))
    } else {
        Ok(None)
    }
}

/// Two steps joined along a wire.
fn cut_of(
    open: &OpenNet,
    parts: &mut Vec<Option<Built>>,
    wire: u32,
    a: u32,
    b: u32,
) -> Result<Option<Built>, AllocError>
    requires { AreSizedBuilt «open».now parts.old.items }
    ensures { IfOk result (OnStep «open».now (Cut wire a b) parts.old.items parts.new.items) }
{
    match taken(parts, b) {
        Some(second) => match taken(parts, a) {
            Some(first) => cut(open, wire, first, second),
            None => Ok(None),
        },
        None => Ok(None),
    }
}

/// Two steps side by side.
fn mix_of(
    open: &OpenNet,
    parts: &mut Vec<Option<Built>>,
    a: u32,
    b: u32,
) -> Result<Option<Built>, AllocError>
    requires { AreSizedBuilt «open».now parts.old.items }
    ensures { IfOk result (OnStep «open».now (Mix a b) parts.old.items parts.new.items) }
{
    match taken(parts, b) {
        Some(second) => match taken(parts, a) {
            Some(first) => mix(open, first, second),
            None => Ok(None),
        },
        None => Ok(None),
    }
}

/// The net that a step builds from the earlier ones; `None` if it builds none.
fn built_by(
    alloc: Global,
    open: &OpenNet,
    parts: &mut Vec<Option<Built>>,
    step: &Step,
) -> Result<Option<Built>, AllocError>
    requires { AreSizedBuilt «open».now parts.old.items }
    ensures { IfOk result (OnStep «open».now step.now parts.old.items parts.new.items) }
{
    match step {
        Step::Empty => Ok(Some(nothing(alloc, open)?)),
        Step::Link { wire } => link(alloc, open, *wire),
        Step::Given { node } => given(alloc, open, *node),
        Step::Graft { node, classes } => graft(alloc, open, parts, *node, classes),
        Step::Cut { wire, a, b } => cut_of(open, parts, *wire, *a, *b),
        Step::Mix { a, b } => mix_of(open, parts, *a, *b),
    }
}

/// Whether the open ends are the free ends.
fn has_free_ends(open: &OpenNet, built: &Built) -> bool
    requires { IsSizedBuilt «open».now built.now }
    ensures free { IsTrue result ↔ HasFreeEnds «open».now built.now (length «open».now.wires) }
    ensures net { IsOrderly «open».now }
{
    for wire in 0..open.wires() {
        let (one, other) = open.wire(wire);
        let (first, second) = built.ends.as_slice()[wire];
        if first != free(one) || second != free(other) {
            return false;
        }
    }
    true
}

/// Whether no step is left.
fn is_none_left(parts: &Vec<Option<Built>>) -> bool
    ensures { IsTrue result ↔ ((i : ℕ) → left_at parts.now.items i ≡ 0) }
{
    for part in parts {
        if part.is_some() {
            return false;
        }
    }
    true
}

/// Whether the last step built all of the open net, and no other step is left.
fn is_last(open: &OpenNet, last: &Built, others: &Vec<Option<Built>>) -> bool
    requires { IsSizedBuilt «open».now last.now }
    ensures last { IsTrue result ↔ IsLastBuilt «open».now last.now others.now.items }
    ensures net { IsOrderly «open».now }
{
    has_free_ends(open, last) && last.nodes.is_all() && is_none_left(others)
}

/// Whether the last step built all of the open net, and all others are named.
fn is_whole(open: &OpenNet, parts: &mut Vec<Option<Built>>) -> bool
    requires { AreSizedBuilt «open».now parts.old.items }
    ensures whole { IsTrue result ↔ IsWholeNet «open».now parts.old.items }
    ensures net { IsTrue result → IsOrderly «open».now }
{
    match parts.pop() {
        Some(Some(last)) => is_last(open, &last, parts),
        _ => false,
    }
}

/// Whether the steps build this open net: each names earlier steps that fit it, each but the last is named once, each node is in
/// one step, and the last one's open ends are the free ends. Refused only when out of memory. What a step builds is this
/// project's own choice, over Lafont 1990's constructions.
pub fn verify(alloc: Global, derivation: &Derivation, open: &OpenNet) -> Result<bool, AllocError>
    ensures { IfOk result (λ yes. IsTrue yes ↔ IsDerivation «open».now derivation.now.steps) }
{
    let mut parts: Vec<Option<Built>> = Vec::new(alloc);
    for step in derivation.steps.as_slice() {
        match built_by(alloc, open, &mut parts, step)? {
            Some(built) => parts.push(Some(built))?,
            None => return Ok(false),
        }
    }
    Ok(is_whole(open, &mut parts))
}
