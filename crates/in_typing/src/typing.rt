ghost use Rattle.std.specs.Prelude.{◌≡◌, ◌↔◌, Some, IsTrue};
ghost use Rattle.in_net.specs.Built.{IsOver};
ghost use Rattle.in_net.specs.Parts.{IsPointOf};
ghost use Rattle.in_net.specs.Rules.{IsRuleOver};
ghost use Rattle.in_typing.specs.Typed.{opposite, type_at, WireFits, Types, TypesRule};

use in_net::{Net, Point, Rule};
use in_symbols::{PortType, Symbols};
use in_syntax::{Code, Refusal};

/// The same type with the other sign.
fn opposite(port: PortType) -> PortType
    ensures { result ≡ opposite port }
{
    PortType {
        kind: port.kind,
        output: !port.output,
    }
}

/// The type at a point: a port's own, and at a free end the opposite of the declared one.
fn type_at(symbols: &Symbols, net: &Net, point: Point) -> PortType
    requires over { IsOver symbols.now net.now }
    requires point { IsPointOf net.now point }
    ensures { type_at symbols.now net.now point ≡ Some result }
{
    match point {
        Point::Port(agent, place) => match net.symbol(agent) {
            Some(symbol) => symbols.port(symbol, place),
            // A point of the net is a port of an agent that is there.
            None => unreachable!(),
        },
        Point::Free(number) => opposite(net.free_type(number)),
    }
}

/// Whether the types at the two points of a wire are opposite.
fn fits(symbols: &Symbols, net: &Net, one: Point, other: Point) -> bool
    requires over { IsOver symbols.now net.now }
    requires one { IsPointOf net.now one }
    requires other { IsPointOf net.now other }
    ensures { IsTrue result ↔ WireFits symbols.now net.now one other }
{
    type_at(symbols, net, one) == opposite(type_at(symbols, net, other))
}

/// Whether each wire of a net, as built, joins an output to an input of one type; a free end counts with the opposite of the
/// type that it is declared with. Lafont 1990: the two ends of a wire have one type and opposite signs.
///
/// Refused with E10 at the place of the first wire, in the order of their places, whose two types aren't opposite.
pub fn type_net(symbols: &Symbols, net: &Net) -> Result<(), Refusal>
    requires over { IsOver symbols.now net.now }
    requires built { IsTrue net.now.built }
    ensures { Types symbols.now net.now result }
{
    for number in 0..net.wires() {
        let (one, other) = net.wire(number);
        if !fits(symbols, net, one, other) {
            return Err(Refusal::at(Code::E10, net.wire_place(number)));
        }
    }
    Ok(())
}

/// Whether the two heads of a rule are a constructor and a destructor of one type, and each wire of its right member joins an
/// output to an input of one type; a boundary end counts with the opposite of the type of its place. Lafont 1990: the right member
/// has, at each end, the type of the port that it replaces.
///
/// Refused with E11 at the name of the second head in the text, if the heads' principal types aren't opposite; otherwise with E10
/// at the place of the first wire, in the order of their places, whose two types aren't opposite.
pub fn type_rule(symbols: &Symbols, rule: &Rule) -> Result<(), Refusal>
    requires { IsRuleOver symbols.now rule.now }
    ensures { TypesRule symbols.now rule.now result }
{
    let (first, second) = rule.heads();
    if !symbols.matching(first, second) {
        return Err(Refusal::at(Code::E11, rule.head_place(1)));
    }
    type_net(symbols, rule.member())
}
