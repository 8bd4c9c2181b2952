ghost use Rattle.std.specs.Prelude.{◌≡◌, ◌+◌, ◌<◌, ◌≤◌, ◌^◌, length, slice_get, Some, IsTrue, false};
ghost use Rattle.in_syntax.specs.Grammar.{max_ports};
ghost use Rattle.in_open_nets.specs.ClassGraphs.{width_of};
ghost use Rattle.in_open_nets.specs.OpenNets.{IsAgent, IsClass, IsOrderly, class_in, classes_of, node_in, node_place_in, open_of};
ghost use Rattle.in_open_nets.specs.Stuck.{ports_of};

use crate::port_classes::PortClasses;
use in_syntax::{Place, SymbolNo};
use sqlite_items::Items;
use std::marker::Model;

/// A node of an open net: an agent with its symbol, or a class of a head with the head's symbol. That a rule's open net has a
/// node for each class of its heads is this project's own choice.
#[derive(Clone, Copy, Debug, PartialEq, Eq)]
pub enum Node {
    AgentNode(SymbolNo),
    ClassNode(SymbolNo, u8),
}

/// A port of a node, by its place, or a free end by its number. Nodes are numbered from 0.
#[derive(Clone, Copy, Debug, PartialEq, Eq)]
pub enum OpenPoint {
    Port(u32, u8),
    Free(u32),
}

/// A node, its place in the text, how many classes its auxiliary ports are in, and the class of each port.
#[derive(Drop)]
pub struct OpenNode {
    pub node: Node,
    pub place: Place,
    pub classes: u8,
    pub class_of: PortClasses,
}

/// A net for the question how it is built up: its nodes in the order of their places, its wires, and its free ends.
#[derive(Drop)]
pub struct OpenNet {
    pub(crate) nodes: Items<OpenNode>,
    pub(crate) wires: Items<(OpenPoint, OpenPoint)>,
    pub(crate) free: u32,
}

// Contracts see the open net by its definition. Each value is an open net.
impl Model for OpenNet {
    ghost use Rattle.in_open_nets.specs.OpenNets as nets;

    ghost Value = { nets.OpenNet };

    ghost view = { λ o. nets.open_of o.nodes o.wires o.free };

    ghost invariant = { λ o. nets.IsOrderly (nets.open_of o.nodes o.wires o.free) };
}

impl OpenNet {
    /// The open net of these nodes, these wires and `free` free ends: each point is in exactly one wire, an agent's principal port is the
    /// one place of class 0, and its other classes are in order.
    pub fn new(nodes: Items<OpenNode>, wires: Items<(OpenPoint, OpenPoint)>, free: u32) -> OpenNet
        requires { IsOrderly (open_of nodes wires free) }
        ensures { result ≡ open_of nodes wires free }
    {
        OpenNet { nodes, wires, free }
    }

    /// How many nodes the open net has.
    pub fn nodes(&self) -> u32
        ensures { result ≡ length self.now.nodes }
    {
        self.nodes.len() as u32
    }

    /// The node of that number. Nodes are numbered from 0 in the order of their names in the text.
    pub fn node(&self, number: u32) -> Node
        requires { number < length self.now.nodes }
        ensures { Some result ≡ node_in self.now number }
    {
        self.nodes.as_slice()[number as usize].node
    }

    /// The place of the node in the text: the name of the agent, or of the head whose class it is.
    pub fn node_place(&self, number: u32) -> Place
        requires { number < length self.now.nodes }
        ensures { Some result ≡ node_place_in self.now number }
    {
        self.nodes.as_slice()[number as usize].place
    }

    /// How many wires the open net has.
    pub fn wires(&self) -> usize
        ensures count { result ≡ length self.now.wires }
        ensures few { result < 2 ^ 32 }
        ensures net { IsOrderly self.now }
    {
        self.wires.len()
    }

    /// The two points of the wire of that number. Wires are numbered from 0, as those of the net or the right member.
    pub fn wire(&self, number: usize) -> (OpenPoint, OpenPoint)
        requires { number < length self.now.wires }
        ensures { slice_get self.now.wires number ≡ Some result }
    {
        self.wires.as_slice()[number]
    }

    /// How many ports the node has.
    pub(crate) fn ports(&self, node: usize) -> usize
        requires { node < length self.now.nodes }
        ensures ports { result ≡ ports_of self.now node }
        ensures few { result ≤ max_ports + 1 }
    {
        self.nodes.as_slice()[node].class_of.len()
    }

    /// The class of a node's port.
    pub fn class(&self, node: usize, port: usize) -> usize
        requires node { node < length self.now.nodes }
        requires port { port < ports_of self.now node }
        ensures { result ≡ class_in self.now node port }
    {
        let found = &self.nodes.as_slice()[node];
        match found.node {
            Node::AgentNode(_) => found.class_of.get(port) as usize,
            Node::ClassNode(_, _) => port,
        }
    }

    /// How many classes the node's auxiliary ports are in.
    pub fn classes(&self, node: usize) -> usize
        requires { node < length self.now.nodes }
        ensures { result ≡ classes_of self.now node }
    {
        self.nodes.as_slice()[node].classes as usize
    }

    /// How many class numbers it has: an agent's principal port is class 0.
    pub(crate) fn width(&self, node: usize) -> usize
        requires { node < length self.now.nodes }
        ensures width { result ≡ width_of self.now node }
        ensures few { result ≤ 256 }
    {
        let found = &self.nodes.as_slice()[node];
        match found.node {
            Node::AgentNode(_) => found.classes as usize + 1,
            Node::ClassNode(_, _) => found.class_of.len(),
        }
    }

    /// Whether the node is an agent. Otherwise it is a class node.
    pub fn is_agent(&self, node: usize) -> bool
        requires { node < length self.now.nodes }
        ensures agent { IsTrue result → IsAgent self.now node }
        ensures class { result ≡ false → IsClass self.now node }
    {
        match self.nodes.as_slice()[node].node {
            Node::AgentNode(_) => true,
            Node::ClassNode(_, _) => false,
        }
    }
}
