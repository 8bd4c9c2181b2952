ghost use Rattle.std.specs.Prelude.{◌≡◌, ◌≢◌, ◌<◌, length, IfOk, OnOk};
ghost use Rattle.in_interaction.specs.Interacting.{unused, MayInteract, CanInteract};
ghost use Rattle.in_net.specs.Interactions.{other};
ghost use Rattle.in_interaction.specs.Made.{AreMade};
ghost use Rattle.in_interaction.specs.Making.{side_of, Over, LeadsTo, IsLanding, principal_of, IsSymbolAfter, IsPairAtEnd, AddsOwn};

use crate::following::Site;
use crate::interacting::{arity, unused};
use in_base::use_invariant;
use in_net::{AgentNo, Net, Point, Rule, in_order};
use in_symbols::Symbols;
use in_syntax::{MAX_PORTS, SymbolNo};
use smallvec::SmallVec;
use std::alloc::{AllocError, Global};

/// How many wires a path has at most: it reaches each boundary end at most once from each side.
const MOST_WIRES: u32 = 4 * MAX_PORTS as u32 + 2;

/// The net round the active pair, or the right member.
#[derive(Clone, Copy)]
enum Side {
    Outer,
    Inner,
}

impl Side {
    fn other(self) -> Side
        ensures { side_of result ≡ other (side_of self) }
    {
        match self {
            Side::Outer => Side::Inner,
            Side::Inner => Side::Outer,
        }
    }
}

/// The end of a boundary end's wire: another boundary end, or a point that stays.
#[derive(Clone, Copy)]
enum Reached {
    End(u32),
    Staying(Point),
}

/// The agent with this principal port.
fn principal(point: Point) -> Option<AgentNo>
    ensures { result ≡ principal_of point }
{
    match point {
        Point::Port(agent, 0) => Some(agent),
        _ => None,
    }
}

impl<'a> Site<'a> {
    /// The end of a boundary end's wire on this side.
    fn reached(&self, side: Side, end: u32) -> Reached
        requires { end < length self.now.rule.member.free }
        ensures { LeadsTo self.now (side_of side) end result }
    {
        match side {
            Side::Outer => {
                let point = self.net.partner(self.port_of(end));
                match self.end_of(point) {
                    Some(next) => Reached::End(next),
                    None => Reached::Staying(point),
                }
            }
            Side::Inner => match self.rule.member().partner(Point::Free(end)) {
                Point::Port(agent, place) => {
                    Reached::Staying(Point::Port(self.names[agent.0 as usize], place))
                }
                Point::Free(next) => Reached::End(next),
            },
        }
    }

    /// The end of the path that leaves a boundary end by this side, if it goes through no lower one.
    fn landing(&self, side: Side, end: u32) -> Option<Point>
        requires { end < length self.now.rule.member.free }
        ensures { IsLanding self.now (side_of side) end result }
    {
        use_invariant!(self.first);
        let mut by = side;
        let mut at = end;
        for wire in 0..MOST_WIRES {
            match self.reached(by, at) {
                Reached::Staying(point) => return Some(point),
                Reached::End(next) => {
                    if next < end {
                        return None;
                    }
                    at = next;
                    by = by.other();
                }
            }
        }
        None
    }

    /// The symbol that an agent which isn't of the pair has after the interaction.
    fn symbol_after(&self, agent: AgentNo) -> Option<SymbolNo>
        requires one { agent ≢ self.now.one }
        requires two { agent ≢ self.now.two }
        ensures { IsSymbolAfter self.now agent result }
    {
        use_invariant!(self.first);
        match self.net.symbol(agent) {
            Some(symbol) => Some(symbol),
            None => self.rule.member().symbol(self.named(agent)?),
        }
    }

    /// The pair whose principal ports are joined by the path through this boundary end, if it goes through no lower one.
    fn pair_through(&self, symbols: &Symbols, end: u32) -> Option<(AgentNo, AgentNo)>
        requires over { Over self.now symbols.now }
        requires end { end < length self.now.rule.member.free }
        ensures { IsPairAtEnd symbols.now self.now end result }
    {
        use_invariant!(self.first);
        let one = principal(self.landing(Side::Outer, end)?)?;
        let other = principal(self.landing(Side::Inner, end)?)?;
        let first = self.symbol_after(one)?;
        let second = self.symbol_after(other)?;
        Some(in_order(symbols, (one, first), (other, second)))
    }
}

impl<'a> Site<'a> {
    /// Adds the right member's own active pairs, under the numbers that its agents get, in the order of their wires.
    fn add_own(
        &self,
        symbols: &Symbols,
        pairs: &mut SmallVec<(AgentNo, AgentNo), 32>,
    ) -> Result<(), AllocError>
        requires over { Over self.now symbols.now }
        ensures { OnOk result (AddsOwn symbols.now self.now pairs.old.items pairs.new.items) }
    {
        use_invariant!(self.first);
        let right = self.rule.member();
        for wire in 0..right.wires() {
            if let Some((one, other)) = right.pair_of_wire(symbols, wire) {
                pairs.push((self.names[one.0 as usize], self.names[other.0 as usize]))?;
            }
        }
        Ok(())
    }
}

/// The active pairs that `interact` would make of this net, rule, `a` and `b`: two agents whose principal ports it joins by one wire.
///
/// First come the pairs whose wires go through ports of `a` and `b`, by the lowest boundary end on each, and then those that the right
/// member holds itself, in the order of their wires, which is that of the text. The constructor is first; of two constructors or two
/// destructors the one with the lower number, which may be that of a new agent. Both orders are this project's own choice. The `Symbols`
/// are those of the net; the other conditions are those of `interact`. Refused only when out of memory.
pub fn made(
    alloc: Global,
    symbols: &Symbols,
    net: &Net,
    rule: &Rule,
    a: AgentNo,
    b: AgentNo,
) -> Result<SmallVec<(AgentNo, AgentNo), 32>, AllocError>
    requires may { MayInteract net.now rule.now a b }
    requires over { CanInteract symbols.now net.now rule.now a b }
    ensures { IfOk result (λ pairs. AreMade symbols.now net.now rule.now a b (unused net.now.cells) pairs.items) }
{
    let right = rule.member();
    let names = unused(alloc, net.cells(), rule.member_cells().len())?;
    let site = Site {
        net,
        rule,
        one: a,
        two: b,
        first: arity(net, a),
        names: names.as_slice(),
    };
    let mut pairs = SmallVec::new(alloc);
    for end in 0..right.free_ends() {
        if let Some(pair) = site.pair_through(symbols, end) {
            pairs.push(pair)?;
        }
    }
    site.add_own(symbols, &mut pairs)?;
    Ok(pairs)
}
