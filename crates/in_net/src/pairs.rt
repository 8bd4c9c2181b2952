ghost use Rattle.std.specs.Prelude.{◌≡◌, ◌≢◌, ◌<◌, length, IfOk, MatchOption};
ghost use Rattle.in_net.specs.ActivePairs.{AreActive, IsActivePair, IsOrdered, JoinsAgents, lower_of, ArePairsOf};
ghost use Rattle.in_symbols.specs.Tables.{IsSymbol};
ghost use Rattle.in_net.specs.Built.{IsOver};
ghost use Rattle.in_net.specs.declared.nets.AgentNo.{AgentNo};

use crate::nets::{AgentNo, Net, Point};
use in_base::use_invariant;
use in_symbols::Symbols;
use in_syntax::SymbolNo;
use std::alloc::{AllocError, Global};

/// Two agents that are an active pair, each with its symbol, in their order: the constructor first, and of two constructors or two
/// destructors the one with the lower number. The `Symbols` have both symbols, and the two agents differ.
pub fn in_order(
    symbols: &Symbols,
    one: (AgentNo, SymbolNo),
    other: (AgentNo, SymbolNo),
) -> (AgentNo, AgentNo)
    requires one { IsSymbol symbols.now one.1.0 }
    requires other { IsSymbol symbols.now other.1.0 }
    requires differ { one.0 ≢ other.0 }
    ensures { IsOrdered symbols.now one other result }
{
    let first = symbols.is_constructor(one.1);
    let second = symbols.is_constructor(other.1);
    if first && !second || first == second && one.0.0 < other.0.0 {
        (one.0, other.0)
    } else {
        (other.0, one.0)
    }
}

impl Net {
    /// The active pair whose lower number this is, if there is one.
    fn pair_at(&self, symbols: &Symbols, agent: AgentNo) -> Option<(AgentNo, AgentNo)>
        requires { IsOver symbols.now self.now }
        ensures { MatchOption result ((b : AgentNo) → AreActive self.now agent b → b.0 < agent.0) (λ q. IsActivePair symbols.now self.now q × (lower_of q ≡ agent.0)) }
    {
        use_invariant!(self.cells);
        let first = self.symbol(agent)?;
        match self.partner(Point::Port(agent, 0)) {
            Point::Port(other, 0) if agent.0 < other.0 => {
                let second = self.symbol(other)?;
                Some(in_order(symbols, (agent, first), (other, second)))
            }
            _ => None,
        }
    }

    /// The active pair whose principal ports this wire joins, in its order, if it joins two. The `Symbols` are those of the net.
    pub fn pair_of_wire(&self, symbols: &Symbols, wire: u32) -> Option<(AgentNo, AgentNo)>
        requires over { IsOver symbols.now self.now }
        requires wire { wire < length self.now.wires }
        ensures { MatchOption result ((q : AgentNo × AgentNo) → JoinsAgents self.now wire q → ⊥) (λ q. IsActivePair symbols.now self.now q × JoinsAgents self.now wire q) }
    {
        use_invariant!(self.cells);
        let (from, to) = self.wire(wire);
        let one = from.principal()?;
        let other = to.principal()?;
        let first = self.symbol(one)?;
        let second = self.symbol(other)?;
        Some(in_order(symbols, (one, first), (other, second)))
    }

    /// The active pairs, each once: two agents whose principal ports are joined (Lafont 1990). The constructor is first, and of two
    /// constructors or two destructors the one with the lower number. The pairs are in the order of their lower numbers, which is this
    /// project's own choice. The `Symbols` are those of the net. Refused only when out of memory.
    pub fn active_pairs(
        &self,
        alloc: Global,
        symbols: &Symbols,
    ) -> Result<Vec<(AgentNo, AgentNo)>, AllocError>
        requires { IsOver symbols.now self.now }
        ensures { IfOk result (λ pairs. ArePairsOf symbols.now self.now pairs.items) }
    {
        use_invariant!(self.cells);
        let mut pairs = Vec::new(alloc);
        for number in 0..self.cells().len() {
            if let Some(pair) = self.pair_at(symbols, AgentNo(number as u32)) {
                pairs.push(pair)?;
            }
        }
        Ok(pairs)
    }
}
