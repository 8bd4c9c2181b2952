// The active pair of two principal ports that are joined.
ghost use Rattle.std.specs.Prelude.{◌≡◌, ◌≢◌, ◌<◌, ◌≤◌, ◌+◌, MatchOption, Some, vec_len, vec_capacity};
ghost use Rattle.in_arena.specs.Arenas.{state_at};
ghost use Rattle.in_arena.specs.States.{IsLive, word_of};
ghost use Rattle.in_cells.specs.Cells.{HasSymbols};
ghost use Rattle.in_cells.specs.Pairs.{IsAtLive, IsPairOf, IsNoPair, AddsPair};

use in_arena::{Arena, CellNo, EndWord};
use in_net::{AgentNo, in_order};
use in_symbols::Symbols;
use in_syntax::SymbolNo;

/// An agent of the net with its symbol.
#[inline(always)]
fn agent(arena: &Arena, cell: CellNo) -> (AgentNo, SymbolNo)
    requires { IsLive (state_at arena.now cell.0) }
    ensures { (result.0.0 ≡ cell.0) × (word_of (state_at arena.now cell.0) ≡ Some result.1.0) }
{
    (AgentNo(cell.0), SymbolNo(arena.symbol(cell)))
}

/// The two agents with these principal ports, in their order, if both ends are principal ports.
#[inline(always)]
pub fn pair_of(
    arena: &Arena,
    symbols: &Symbols,
    one: EndWord,
    other: EndWord,
) -> Option<(AgentNo, AgentNo)>
    requires one { IsAtLive arena.now one }
    requires other { IsAtLive arena.now other }
    requires differ { one ≢ other }
    requires symbols { HasSymbols symbols.now arena.now }
    ensures { MatchOption result (IsNoPair one other) (IsPairOf symbols.now arena.now one other) }
{
    let first = one.principal()?;
    let second = other.principal()?;
    Some(in_order(symbols, agent(arena, first), agent(arena, second)))
}

/// Adds that pair, if both are principal ports.
#[inline(always)]
pub fn add_pair(
    arena: &Arena,
    symbols: &Symbols,
    one: EndWord,
    other: EndWord,
    made: &mut Vec<(u32, u32)>,
)
    requires one { IsAtLive arena.now one }
    requires other { IsAtLive arena.now other }
    requires differ { one ≢ other }
    requires symbols { HasSymbols symbols.now arena.now }
    requires room { vec_len made.old < vec_capacity made.old }
    ensures added { AddsPair symbols.now arena.now one other made.old.items made.new.items }
    ensures longer { vec_len made.new ≤ vec_len made.old + 1 }
    ensures capacity { vec_capacity made.new ≡ vec_capacity made.old }
{
    if let Some((first, second)) = pair_of(arena, symbols, one, other) {
        made.push_reserved((first.0, second.0));
    }
}
