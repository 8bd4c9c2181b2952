ghost use Rattle.std.specs.Prelude.{◌≡◌, ◌+◌, ◌<◌, ◌≤◌, ◌^◌, length, IsTrue, Some, option_map, IfOk};
ghost use Rattle.in_syntax.specs.Grammar.{max_ports};
ghost use Rattle.in_symbols.specs.Tables.{IsSymbol};
ghost use Rattle.in_net.specs.Built.{IsOver};
ghost use Rattle.in_net.specs.Parts.{IsWhole, wire_in};
ghost use Rattle.in_open_nets_of_programs.specs.Opening.{AreAllThere, AreClassesOf, Each, AreNumbered, IsNodeOf, open_point, open_wire, AreNodesOf, AreWiresOf, Opens};

use in_net::{AgentNo, Net};
use in_open_nets::{Node, OpenNet, OpenNode, OpenPoint, PortClasses};
use in_symbols::Symbols;
use in_syntax::{SymbolNo, with_room};
use sqlite_items::Items;
use std::alloc::{AllocError, Global};
use std::marker::Model;

/// The classes of a symbol's places.
fn classes(symbols: &Symbols, symbol: SymbolNo) -> PortClasses
    requires { IsSymbol symbols.now symbol.0 }
    ensures classes { AreClassesOf symbols.now symbol result }
    ensures few { length result ≤ max_ports + 1 }
{
    let mut classes = PortClasses::new();
    for place in 0..=symbols.arity(symbol) {
        classes.push(symbols.class_of(symbol, place));
    }
    classes
}

/// A net or a right member as built, with the tables of its symbols.
#[derive(Drop)]
pub(crate) struct BuiltNet<'a> {
    pub(crate) symbols: &'a Symbols,
    pub(crate) net: &'a Net,
}

// Contracts see the tables and the net.
impl<'a> Model for BuiltNet<'a> {
    ghost use Rattle.in_open_nets_of_programs.specs.Opening.{IsBuiltOver, Member};

    ghost Value = { Member };

    ghost view = { λ m. record { tables = m.symbols.now; net = m.net.now } };

    ghost invariant = { λ m. IsBuiltOver m.symbols.now m.net.now };
}

/// The node of an agent.
pub(crate) fn node(built: &BuiltNet, agent: AgentNo) -> OpenNode
    requires { agent.0 < length built.now.net.cells }
    ensures node { IsNodeOf built.now.tables built.now.net agent.0 result }
    ensures few { length result.class_of ≤ max_ports + 1 }
{
    match built.net.symbol(agent) {
        Some(symbol) => OpenNode {
            node: Node::AgentNode(symbol),
            place: built.net.agent_place(agent),
            classes: built.symbols.classes(symbol),
            class_of: classes(built.symbols, symbol),
        },
        // In a net as built, no number is without an agent.
        None => unreachable!(),
    }
}

/// The nodes of the agents.
fn nodes(alloc: Global, built: &BuiltNet) -> Result<Items<OpenNode>, AllocError>
    ensures nodes { IfOk result (AreNodesOf built.now.tables built.now.net) }
    ensures small { IfOk result (λ nodes. length nodes < 2 ^ 32) }
    ensures few { IfOk result (Each (λ n node. length node.class_of ≤ max_ports + 1)) }
    ensures whole { IsWhole built.now.net }
{
    let count = built.net.agents();
    let mut nodes = with_room(alloc, count as usize)?;
    for agent in 0..count {
        nodes.push(node(built, AgentNo(agent)))?;
    }
    Ok(nodes)
}

/// A point of the net as one of its open net.
fn open_point(point: in_net::Point) -> OpenPoint
    ensures { result ≡ open_point point }
{
    match point {
        in_net::Point::Port(agent, place) => OpenPoint::Port(agent.0, place),
        in_net::Point::Free(number) => OpenPoint::Free(number),
    }
}

/// A wire of the net between the points of its open net.
fn wire(net: &Net, number: u32) -> (OpenPoint, OpenPoint)
    requires { number < length net.now.wires }
    ensures { option_map open_wire (wire_in net.now number) ≡ Some result }
{
    let (one, other) = net.wire(number);
    (open_point(one), open_point(other))
}

/// The wires between the nodes.
fn wires(alloc: Global, net: &Net) -> Result<Items<(OpenPoint, OpenPoint)>, AllocError>
    ensures { IfOk result (AreWiresOf net.now) }
{
    let count = net.wires();
    let mut wires = with_room(alloc, count as usize)?;
    for number in 0..count {
        wires.push(wire(net, number))?;
    }
    Ok(wires)
}

/// The open net of an initial net, as built: a node for each agent, in order and with the classes of its symbol, a wire for each
/// wire, by number, and the free ends. Refused only when out of memory. The tables must number classes from 1, as those of a
/// program do. Lafont 1990 requires a net to be semi-simple; that is a property of its open net.
pub fn open_net(alloc: Global, symbols: &Symbols, net: &Net) -> Result<OpenNet, AllocError>
    requires over { IsOver symbols.now net.now }
    requires built { IsTrue net.now.built }
    requires there { AreAllThere net.now }
    requires numbered { AreNumbered symbols.now }
    ensures { IfOk result (Opens symbols.now net.now) }
{
    let built = BuiltNet { symbols, net };
    let nodes = nodes(alloc, &built)?;
    let wires = wires(alloc, net)?;
    Ok(OpenNet::new(nodes, wires, net.free_ends()))
}
