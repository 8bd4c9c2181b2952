//! The two ends of a wire whose types don't fit, for the diagnosis.
use in_net::{AgentNo, Net, Point, Rule};
use in_symbols::Symbols;
use in_syntax::{Place, SymbolNo};

/// An end of a wire.
#[derive(Clone, Copy, Debug, PartialEq, Eq)]
pub enum WireEnd {
    /// A port of an agent: its symbol, the number of the port, 0 for the principal one, and the place of the agent's name.
    Agent {
        symbol: SymbolNo,
        port: usize,
        place: Place,
    },
    /// In a right member, the end that replaces an auxiliary port of a head: the head's symbol, the number of the port, from 1, and the place
    /// of the head's name.
    Head {
        symbol: SymbolNo,
        port: usize,
        place: Place,
    },
    /// The free end of the net that has this number, from 0.
    Free(u32),
}

/// The two ends of a wire whose types don't fit.
#[derive(Clone, Copy, Debug, PartialEq, Eq)]
pub struct Misfit {
    pub one: WireEnd,
    pub other: WireEnd,
}

/// The end of a wire at an agent's port.
fn agent_end(net: &Net, agent: AgentNo, port: u8) -> Option<WireEnd> {
    let symbol = net.symbol(agent)?;
    if !net.is_built() || agent.0 as usize >= net.cells().len() {
        return None;
    }
    Some(WireEnd::Agent {
        symbol,
        port: port as usize,
        place: net.agent_place(agent),
    })
}

/// The end of a wire of a right member for the boundary end of this number: the auxiliary ports of the first of the two heads come
/// first.
fn boundary_end(symbols: &Symbols, rule: &Rule, number: u32) -> Option<WireEnd> {
    let (one, other) = rule.heads();
    if one.0 >= symbols.symbols() {
        return None;
    }
    let arity = symbols.arity(one) as u32;
    let (symbol, before) = if number < arity {
        (one, 0)
    } else {
        (other, arity)
    };
    let head = if symbol == rule.written().0 { 0 } else { 1 };
    Some(WireEnd::Head {
        symbol,
        port: (number - before) as usize + 1,
        place: rule.head_place(head),
    })
}

/// The two points of the net's wire that has this place.
fn wire_at(net: &Net, place: Place) -> Option<(Point, Point)> {
    if !net.is_built() {
        return None;
    }
    for number in 0..net.wires() {
        if net.wire_place(number).from == place.from {
            return Some(net.wire(number));
        }
    }
    None
}

/// The end of a wire at a point of the net.
fn net_end(net: &Net, point: Point) -> Option<WireEnd> {
    match point {
        Point::Port(agent, port) => agent_end(net, agent, port),
        Point::Free(number) => Some(WireEnd::Free(number)),
    }
}

/// The ends of the net's wire at a place of the text.
fn misfit_in_net(net: &Net, place: Place) -> Option<Misfit> {
    let (one, other) = wire_at(net, place)?;
    Some(Misfit {
        one: net_end(net, one)?,
        other: net_end(net, other)?,
    })
}

/// The end of a wire at a point of a rule's right member.
fn rule_end(symbols: &Symbols, rule: &Rule, point: Point) -> Option<WireEnd> {
    match point {
        Point::Port(agent, port) => agent_end(rule.member(), agent, port),
        Point::Free(number) => boundary_end(symbols, rule, number),
    }
}

/// The ends of a wire of a rule's right member at a place of the text.
fn misfit_in_rule(symbols: &Symbols, rule: &Rule, place: Place) -> Option<Misfit> {
    let (one, other) = wire_at(rule.member(), place)?;
    Some(Misfit {
        one: rule_end(symbols, rule, one)?,
        other: rule_end(symbols, rule, other)?,
    })
}

/// The last rule that begins before a place of the text.
fn rule_before(rules: &[Rule], place: Place) -> Option<&Rule> {
    let mut last = None;
    for rule in rules {
        if rule.head_place(0).from <= place.from {
            last = Some(rule);
        }
    }
    last
}

/// The ends of the wire at a place of the text, in the net or the rule around that place.
pub(crate) fn misfit_at(
    symbols: &Symbols,
    rules: &[Rule],
    net: &Net,
    place: Place,
) -> Option<Misfit> {
    match misfit_in_net(net, place) {
        Some(misfit) => Some(misfit),
        None => misfit_in_rule(symbols, rule_before(rules, place)?, place),
    }
}
