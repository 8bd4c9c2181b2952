// Two free ends that are joined.
ghost use Rattle.std.specs.Prelude.{◌≡◌, ◌≤◌, ◌<◌, ◌+◌, ℕ, suc, length, take, Some, slice_get, vec_len, vec_capacity};
ghost use Rattle.in_arena.specs.declared.content.End.{End as EndOf};
ghost use Rattle.in_net.specs.Nets.{Net, Signature};
ghost use Rattle.in_gluing.specs.Joining.{JoinsEnds};
ghost use Rattle.in_cells.specs.Cells.{HasSymbols, KeepsCells};
ghost use Rattle.in_cells.specs.Pairs.{AddsPair};
ghost use Rattle.in_cells.specs.Shown.{IsShown};
ghost use Rattle.in_cells.specs.Cutting.{Shows};

use crate::exchanging::exchange;
use crate::pairing::add_pair;
use in_arena::{Arena, EndWord};
use in_symbols::Symbols;

/// Joins the last two free ends of a net, which has `own` more: their partners then lead to each other, and the two are gone. If both
/// partners are principal ports, their agents are a new pair, which is added to `made`. A cycle of the two alone is dropped. It takes no memory.
pub fn join_last(
    arena: &mut Arena,
    ends: &mut [EndWord],
    own: u32,
    symbols: &Symbols,
    made: &mut Vec<(u32, u32)>,
)
    requires shown { (sig : Signature) × (m : Net ℕ) × Shows sig (own + 2) arena.old ends.old m }
    requires room { own + 2 ≤ length ends.old }
    requires symbols { HasSymbols symbols.now arena.old }
    requires made_room { vec_len made.old < vec_capacity made.old }
    ensures joined { (sig : Signature) (m n : Net ℕ) → Shows sig (own + 2) arena.old ends.old m → IsShown arena.new (take own ends.new) n → JoinsEnds m own (suc own) n }
    ensures made { (one other : EndOf) → slice_get ends.old own ≡ Some one → slice_get ends.old (suc own) ≡ Some other → AddsPair symbols.now arena.new one other made.old.items made.new.items }
    ensures kept { KeepsCells arena.old arena.new }
    ensures long { length ends.new ≡ length ends.old }
    ensures capacity { vec_capacity made.new ≡ vec_capacity made.old }
{
    let first = own as usize;
    let one = ends[first];
    let other = ends[first + 1];
    exchange(arena, ends, one, other);
    add_pair(arena, symbols, one, other, made);
}
