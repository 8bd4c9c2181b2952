ghost use Rattle.std.specs.Prelude.{◌≡◌, ◌+◌, ◌<◌, ◌≤◌, ◌^◌, cond, nat_eq, nat_lt, length, option_map, Some, IfOk, IsTrue};
ghost use Rattle.in_syntax.specs.Grammar.{max_ports};
ghost use Rattle.in_symbols.specs.Tables.{IsSymbol, arity_of, class_at};
ghost use Rattle.in_net.specs.Parts.{IsPointOf, IsWhole, agent_place_in, wire_in};
ghost use Rattle.in_net.specs.Rules.{IsRuleOver};
ghost use Rattle.in_open_nets_of_programs.specs.Opening.{AreAllThere, AreNumbered, Each};
ghost use Rattle.in_open_nets_of_programs.specs.OpeningRules.{places_in, IsClassNodeOf, agent_node, agents_before, class_port, boundary_port, is_turned, rule_nodes, rule_point, rule_wire, second_node, AreRuleNodes, AreRuleWires, IsRuleNode, IsRuleWhole, OpensRule};

use crate::opening::{BuiltNet, node};
use in_net::{AgentNo, Rule};
use in_open_nets::{Node, OpenNet, OpenNode, OpenPoint, PortClasses};
use in_symbols::Symbols;
use in_syntax::{Place, SymbolNo, with_room};
use sqlite_items::Items;
use std::alloc::{AllocError, Global};
use std::marker::Model;

/// 1 if a place is in a class, otherwise 0.
fn one_in(symbols: &Symbols, symbol: SymbolNo, class: u8, place: u8) -> u8
    requires symbol { IsSymbol symbols.now symbol.0 }
    requires place { place ≤ arity_of symbols.now symbol.0 }
    ensures one { result ≡ cond (nat_eq (class_at symbols.now symbol.0 place) class) 1 0 }
    ensures few { result ≤ 1 }
{
    if symbols.class_of(symbol, place) == class {
        1
    } else {
        0
    }
}

/// How many of the places 1 to `last` of a symbol are in a class.
fn places_in(symbols: &Symbols, symbol: SymbolNo, class: u8, last: u8) -> u8
    requires symbol { IsSymbol symbols.now symbol.0 }
    requires last { last ≤ arity_of symbols.now symbol.0 }
    ensures count { result ≡ places_in symbols.now symbol.0 class last }
    ensures few { result ≤ last }
{
    let mut count = 0;
    for place in 0..last {
        count += one_in(symbols, symbol, class, place + 1);
    }
    count
}

/// A port for each of `count` places.
fn ports(count: u8) -> PortClasses
    requires { count ≤ max_ports }
    ensures size { length result ≡ count }
    ensures numbers { Each (λ i k. k ≡ i) result }
{
    let mut ports = PortClasses::new();
    for port in 0..count {
        ports.push(port);
    }
    ports
}

/// The node of a class of a head.
fn class_node(symbols: &Symbols, symbol: SymbolNo, place: Place, class: u8) -> OpenNode
    requires { IsSymbol symbols.now symbol.0 }
    ensures node { IsClassNodeOf symbols.now symbol place class result }
    ensures few { length result.class_of ≤ max_ports + 1 }
{
    let count = places_in(symbols, symbol, class, symbols.arity(symbol));
    OpenNode {
        node: Node::ClassNode(symbol, class),
        place,
        classes: count,
        class_of: ports(count),
    }
}

/// 1 if this agent of the right member comes before the second head in the text, otherwise 0.
fn one_before(rule: &Rule, agent: u32) -> u32
    requires agent { agent < length rule.now.member.cells }
    requires built { IsTrue rule.now.member.built }
    ensures one { option_map (λ q. cond (nat_lt q.from rule.now.head_places.1.from) 1 0) (agent_place_in rule.now.member agent) ≡ Some result }
    ensures few { result ≤ 1 }
{
    if rule.member().agent_place(AgentNo(agent)).from < rule.head_place(1).from {
        1
    } else {
        0
    }
}

/// How many agents of the right member come before the second head in the text.
fn agents_before(rule: &Rule) -> u32
    requires built { IsTrue rule.now.member.built }
    requires there { AreAllThere rule.now.member }
    ensures before { result ≡ agents_before rule.now }
    ensures few { result ≤ length rule.now.member.cells }
{
    let mut count = 0;
    let agents = rule.member().agents();
    for agent in 0..agents {
        count += one_before(rule, agent);
    }
    count
}

/// The port of a class node at a place of a symbol, whose first class node has that number.
fn class_port(symbols: &Symbols, symbol: SymbolNo, first: u32, place: u8) -> OpenPoint
    requires symbol { IsSymbol symbols.now symbol.0 }
    requires numbered { AreNumbered symbols.now }
    requires some { 0 < place }
    requires place { place ≤ arity_of symbols.now symbol.0 }
    requires few { first < 2 ^ 31 }
    ensures { result ≡ class_port symbols.now symbol.0 first place }
{
    let class = symbols.class_of(symbol, place);
    let node = first + (class as u32 - 1);
    OpenPoint::Port(node, places_in(symbols, symbol, class, place - 1))
}

/// The layout of a rule's open net: how many class nodes its first head has and its second one, and how many agents come before the
/// second head.
#[derive(Drop)]
struct Layout<'a> {
    symbols: &'a Symbols,
    rule: &'a Rule,
    first: u32,
    before: u32,
    second: u32,
}

// Contracts see the tables and the rule.
impl<'a> Model for Layout<'a> {
    ghost use Rattle.in_open_nets_of_programs.specs.OpeningRules.{LaidOut, IsLayoutOf};

    ghost Value = { LaidOut };

    ghost view = { λ l. record { tables = l.symbols.now; rule = l.rule.now } };

    ghost invariant = { λ l. IsLayoutOf l.symbols.now l.rule.now l.first l.before l.second };
}

impl<'a> Layout<'a> {
    /// The layout of a rule.
    fn of(symbols: &'a Symbols, rule: &'a Rule) -> Layout<'a>
        requires over { IsRuleOver symbols.now rule.now }
        requires whole { IsRuleWhole symbols.now rule.now }
        requires numbered { AreNumbered symbols.now }
        ensures tables { result.tables ≡ symbols.now }
        ensures rule { result.rule ≡ rule.now }
    {
        let (first, second) = rule.written();
        Layout {
            symbols,
            rule,
            first: symbols.classes(first) as u32,
            before: agents_before(rule),
            second: symbols.classes(second) as u32,
        }
    }

    /// The node of an agent.
    fn agent(&self, agent: AgentNo) -> u32
        requires { agent.0 < length self.now.rule.member.cells }
        ensures { result ≡ agent_node self.now.tables self.now.rule agent.0 }
    {
        if agent.0 < self.before {
            self.first + agent.0
        } else {
            self.first + (self.second + agent.0)
        }
    }

    /// The first class node of the head that is or is not written second.
    fn first_node(&self, second: bool) -> u32
        ensures node { result ≡ cond second (second_node self.now.tables self.now.rule) 0 }
        ensures few { result < 2 ^ 31 }
    {
        if second { self.first + self.before } else { 0 }
    }

    /// The port of a class node that is the boundary end of that number.
    fn boundary_port(&self, number: u32) -> OpenPoint
        requires { number < length self.now.rule.member.free }
        ensures { result ≡ boundary_port self.now.tables self.now.rule (is_turned self.now.rule) number }
    {
        let symbols = self.symbols;
        let (one, other) = self.rule.heads();
        let (first, _) = self.rule.written();
        let arity = symbols.arity(one) as u32;
        let turned = one.0 != first.0;
        if number < arity {
            class_port(symbols, one, self.first_node(turned), number as u8 + 1)
        } else if number - arity < symbols.arity(other) as u32 {
            let place = (number - arity) as u8 + 1;
            class_port(symbols, other, self.first_node(!turned), place)
        } else {
            // A right member has as many boundary ends as its two heads have auxiliary ports.
            unreachable!()
        }
    }

    /// A point of the right member as one of the rule's open net.
    fn point(&self, point: in_net::Point) -> OpenPoint
        requires { IsPointOf self.now.rule.member point }
        ensures { result ≡ rule_point self.now.tables self.now.rule (is_turned self.now.rule) point }
    {
        match point {
            in_net::Point::Port(agent, place) => OpenPoint::Port(self.agent(agent), place),
            in_net::Point::Free(number) => self.boundary_port(number),
        }
    }

    /// The node of that number.
    fn node(&self, number: u32) -> OpenNode
        requires { number < rule_nodes self.now.tables self.now.rule }
        ensures node { IsRuleNode self.now.tables self.now.rule number result }
        ensures few { length result.class_of ≤ max_ports + 1 }
    {
        let symbols = self.symbols;
        let rule = self.rule;
        let member = BuiltNet {
            symbols,
            net: rule.member(),
        };
        let (first, second) = rule.written();
        if number < self.first {
            return class_node(symbols, first, rule.head_place(0), number as u8 + 1);
        }
        let at = number - self.first;
        if at < self.before {
            return node(&member, AgentNo(at));
        }
        if at - self.before < self.second {
            let class = (at - self.before) as u8 + 1;
            return class_node(symbols, second, rule.head_place(1), class);
        }
        node(&member, AgentNo(at - self.second))
    }

    /// The nodes in the order of their tokens.
    fn nodes(&self, alloc: Global) -> Result<Items<OpenNode>, AllocError>
        ensures nodes { IfOk result (AreRuleNodes self.now.tables self.now.rule) }
        ensures small { IfOk result (λ nodes. length nodes < 2 ^ 32) }
        ensures few { IfOk result (Each (λ n node. length node.class_of ≤ max_ports + 1)) }
        ensures member { IsWhole self.now.rule.member }
    {
        let rule = self.rule;
        let count = self.first + (self.second + rule.member().agents());
        let mut nodes = with_room(alloc, count as usize)?;
        for number in 0..count {
            nodes.push(self.node(number))?;
        }
        Ok(nodes)
    }

    /// A wire of the right member between the points of the rule's open net.
    fn wire(&self, number: u32) -> (OpenPoint, OpenPoint)
        requires { number < length self.now.rule.member.wires }
        ensures { option_map (rule_wire self.now.tables self.now.rule (is_turned self.now.rule)) (wire_in self.now.rule.member number) ≡ Some result }
    {
        let rule = self.rule;
        let (one, other) = rule.member().wire(number);
        (self.point(one), self.point(other))
    }

    /// The wires between the nodes.
    fn wires(&self, alloc: Global) -> Result<Items<(OpenPoint, OpenPoint)>, AllocError>
        ensures { IfOk result (AreRuleWires self.now.tables self.now.rule) }
    {
        let rule = self.rule;
        let count = rule.member().wires();
        let mut wires = with_room(alloc, count as usize)?;
        for number in 0..count {
            wires.push(self.wire(number))?;
        }
        Ok(wires)
    }
}

/// The open net of a rule: a node for each class of its two heads and for each agent of its right member, in the order of their
/// names, and a wire for each wire of the right member, by number; an end of a wire at a boundary end is that end's port of its
/// class node, so that no free end is left. Refused only when out of memory. The rule has to be whole, and the tables have to number
/// classes from 1, as those of a program do. That the classes of the heads are nodes, and each of their ports a class by itself,
/// is this project's own choice; Lafont 1990 has a right member simple for these classes.
pub fn open_rule(alloc: Global, symbols: &Symbols, rule: &Rule) -> Result<OpenNet, AllocError>
    requires over { IsRuleOver symbols.now rule.now }
    requires whole { IsRuleWhole symbols.now rule.now }
    requires numbered { AreNumbered symbols.now }
    ensures { IfOk result (OpensRule symbols.now rule.now) }
{
    let layout = Layout::of(symbols, rule);
    let nodes = layout.nodes(alloc)?;
    let wires = layout.wires(alloc)?;
    Ok(OpenNet::new(nodes, wires, 0))
}
