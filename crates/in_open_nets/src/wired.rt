ghost use Rattle.std.specs.Prelude.{◌≡◌, ◌<◌, ◌≤◌, ◌^◌, ◌*◌, ◌+◌, length, slice_index_or, Some, None, IsTrue, false, IfOk, OnOk, ℕ};
ghost use Rattle.in_syntax.specs.Grammar.{max_ports};
ghost use Rattle.in_open_nets.specs.ClassGraphs.{width_of};
ghost use Rattle.in_open_nets.specs.OpenNets.{IsAgent, IsClass, IsOrderly, IsOpenPoint, IsWire, class_in, classes_of};
ghost use Rattle.in_open_nets.specs.Parts.{led, ArePorts, HasSlot, IsWired};
ghost use Rattle.in_open_nets.specs.Stuck.{ports_of};
ghost use Rattle.in_open_nets.specs.declared.open_nets.OpenPoint.TheVariants.{Port};

use crate::open_nets::{OpenNet, OpenPoint};
use in_base::use_invariant;
use in_syntax::{MAX_PORTS, with_room};
use sqlite_items::Items;
use std::alloc::{AllocError, Global};
use std::marker::Model;

/// The most ports of a node: an agent's principal port and its auxiliary ports.
pub(crate) const MOST_PORTS: usize = MAX_PORTS + 1;

/// The content of a slot: no wire, or the other end of its wire.
#[derive(Clone, Copy, Drop)]
pub(crate) enum Target {
    Nowhere,
    ToPort,
    ToFree,
}

/// The wire at a port and its other point, if there is one, in twelve bytes: a search reads one for each port that it visits.
#[derive(Drop)]
pub(crate) struct Slot {
    wire: u32,
    number: u32,
    place: u8,
    target: Target,
}

// Contracts see the wire and the point.
impl Model for Slot {
    ghost use Rattle.in_open_nets.specs.Parts as parts;

    ghost Value = { parts.Slot };

    ghost view = { λ s. parts.slot_of s.wire s.number s.place s.target };
}

impl Slot {
    /// No wire.
    fn empty() -> Slot
        ensures { result ≡ None }
    {
        Slot {
            wire: 0,
            number: 0,
            place: 0,
            target: Target::Nowhere,
        }
    }

    /// The wire leads to this point.
    fn to(wire: u32, point: OpenPoint) -> Slot
        ensures { result ≡ Some (wire, point) }
    {
        match point {
            OpenPoint::Port(number, place) => Slot {
                wire,
                number,
                place,
                target: Target::ToPort,
            },
            OpenPoint::Free(number) => Slot {
                wire,
                number,
                place: 0,
                target: Target::ToFree,
            },
        }
    }

    /// The wire and its other point.
    fn get(&self) -> Option<(u32, OpenPoint)>
        ensures { result ≡ self.now }
    {
        match self.target {
            Target::Nowhere => None,
            Target::ToPort => Some((self.wire, OpenPoint::Port(self.number, self.place))),
            Target::ToFree => Some((self.wire, OpenPoint::Free(self.number))),
        }
    }
}

/// An open net, with how many ports each node has, and the wire at each port and its other point, side by side for a search. A node has
/// a slot for each port that an agent may have.
pub struct Wired<'a> {
    open: &'a OpenNet,
    ports: Items<u8>,
    slots: Items<Slot>,
}

// By hand, so that each drop is a call: a derived one is written out in each proof, at each way out.
impl<'a> Drop for Wired<'a> {
    fn drop(self) {
        let Wired {
            open: _,
            ports: _,
            slots: _,
        } = self;
    }
}

// Contracts see the open net.
impl<'a> Model for Wired<'a> {
    ghost use Rattle.std.specs.Prelude.{length};
    ghost use Rattle.in_open_nets.specs.OpenNets as nets;
    ghost use Rattle.in_open_nets.specs.Parts as parts;

    ghost Value = { nets.OpenNet };

    ghost view = { λ w. w.«open».now };

    ghost invariant = { λ w. nets.IsOrderly w.«open».now × parts.IsWired w.«open».now w.slots × parts.ArePorts w.«open».now (length w.«open».now.nodes) w.ports };
}

/// How many ports each node has.
fn ports(alloc: Global, open: &OpenNet) -> Result<Items<u8>, AllocError>
    ensures { IfOk result (ArePorts «open».now (length «open».now.nodes)) }
{
    let count = open.nodes() as usize;
    let mut ports = with_room(alloc, count)?;
    for node in 0..count {
        ports.push(open.ports(node) as u8)?;
    }
    Ok(ports)
}

/// `count` empty slots.
fn empty(alloc: Global, count: usize) -> Result<Items<Slot>, AllocError>
    ensures count { IfOk result (λ slots. length slots ≡ count) }
    ensures empty { IfOk result (λ slots. (i : ℕ) → slice_index_or slots i None ≡ None) }
{
    let mut slots = with_room(alloc, count)?;
    for slot in 0..count {
        slots.push(Slot::empty())?;
    }
    Ok(slots)
}

/// The wire leads from this point to that one.
fn lead(slots: &mut Items<Slot>, wire: u32, from: OpenPoint, to: OpenPoint)
    requires { HasSlot slots.old from }
    ensures { slots.new ≡ led slots.old wire from to }
{
    match from {
        OpenPoint::Port(node, place) => {
            slots.set(
                node as usize * MOST_PORTS + place as usize,
                Slot::to(wire, to),
            );
        }
        OpenPoint::Free(_) => {}
    }
}

/// The slots of the open net's ports.
fn slots(alloc: Global, open: &OpenNet) -> Result<Items<Slot>, AllocError>
    ensures { IfOk result (IsWired «open».now) }
{
    let count = open.nodes() as usize;
    let mut slots = empty(alloc, count * MOST_PORTS)?;
    for wire in 0..open.wires() {
        let (one, other) = open.wire(wire);
        lead(&mut slots, wire as u32, one, other);
        lead(&mut slots, wire as u32, other, one);
    }
    Ok(slots)
}

impl<'a> Wired<'a> {
    /// The open net, with its wires by port.
    pub fn of(alloc: Global, open: &'a OpenNet) -> Result<Wired<'a>, AllocError>
        ensures { IfOk result (λ wired. wired ≡ «open».now) }
    {
        use_invariant!(open.nodes);
        let ports = ports(alloc, open)?;
        Ok(Wired {
            open,
            ports,
            slots: slots(alloc, open)?,
        })
    }

    /// How many nodes there are.
    pub fn nodes(&self) -> usize
        ensures count { result ≡ length self.now.nodes }
        ensures few { result < 2 ^ 32 }
        ensures net { IsOrderly self.now }
    {
        let open = self.open;
        open.nodes.len()
    }

    /// How many ports the node has.
    pub fn ports(&self, node: usize) -> usize
        requires { node < length self.now.nodes }
        ensures ports { result ≡ ports_of self.now node }
        ensures few { result ≤ max_ports + 1 }
        ensures net { IsOrderly self.now }
    {
        self.ports.as_slice()[node] as usize
    }

    /// The class of a node's port.
    pub fn class(&self, node: usize, port: usize) -> usize
        requires node { node < length self.now.nodes }
        requires port { port < ports_of self.now node }
        ensures { result ≡ class_in self.now node port }
    {
        self.open.class(node, port)
    }

    /// How many classes the node's auxiliary ports are in.
    pub fn classes(&self, node: usize) -> usize
        requires { node < length self.now.nodes }
        ensures { result ≡ classes_of self.now node }
    {
        self.open.classes(node)
    }

    /// How many class numbers the node has: an agent's principal port is class 0.
    pub fn width(&self, node: usize) -> usize
        requires { node < length self.now.nodes }
        ensures width { result ≡ width_of self.now node }
        ensures few { result ≤ 256 }
        ensures net { IsOrderly self.now }
    {
        self.open.width(node)
    }

    /// Whether the node is an agent. Otherwise it is a class node.
    pub fn is_agent(&self, node: usize) -> bool
        requires { node < length self.now.nodes }
        ensures agent { IsTrue result → IsAgent self.now node }
        ensures class { result ≡ false → IsClass self.now node }
    {
        self.open.is_agent(node)
    }

    /// The wire at a port, and its other point.
    pub fn partner(&self, node: usize, port: usize) -> (u32, OpenPoint)
        requires node { node < length self.now.nodes }
        requires port { port < ports_of self.now node }
        ensures wire { IsWire self.now result.0 (Port node port) result.1 }
        ensures point { IsOpenPoint self.now result.1 }
        ensures net { IsOrderly self.now }
    {
        match self.slots.as_slice()[node * MOST_PORTS + port].get() {
            Some(found) => found,
            // Each port has a wire in an open net.
            None => unreachable!(),
        }
    }
}
