// Joining boundary ends, from the highest to the lowest.
ghost use Rattle.std.specs.Prelude.{◌≡◌, ◌+◌, ◌<◌, ◌≤◌, ℕ, List, vec_len, vec_capacity};
ghost use Rattle.in_cells.specs.Between.{Interaction, IsReadyToJoin, IsBetween, IsDone, HasMade, AddsMade};
ghost use Rattle.in_cells.specs.Cells.{KeepsCells, HasSymbols};

use crate::exchanging::exchange;
use crate::pairing::add_pair;
use in_arena::{Arena, EndWord};
use in_symbols::Symbols;

/// Joins one boundary end: its outer side and its inner side then lead to each other. If both sides are principal ports, their agents are a
/// new pair.
#[inline(always)]
fn join(
    arena: &mut Arena,
    ends: &mut [EndWord],
    own: usize,
    many: usize,
    end: usize,
    symbols: &Symbols,
    made: &mut Vec<(u32, u32)>,
)
    requires end { end < many }
    requires between { (x : Interaction) × IsBetween symbols.now x own many (end + 1) arena.old ends.old }
    requires symbols { HasSymbols symbols.now arena.old }
    requires room { vec_len made.old < vec_capacity made.old }
    ensures between { (x : Interaction) → IsBetween symbols.now x own many (end + 1) arena.old ends.old → IsBetween symbols.now x own many end arena.new ends.new }
    ensures made { (x : Interaction) (first : List (ℕ × ℕ)) → IsBetween symbols.now x own many (end + 1) arena.old ends.old → HasMade symbols.now x (end + 1) first made.old.items → HasMade symbols.now x end first made.new.items }
    ensures kept { KeepsCells arena.old arena.new }
    ensures longer { vec_len made.new ≤ vec_len made.old + 1 }
    ensures capacity { vec_capacity made.new ≡ vec_capacity made.old }
{
    let outer = ends[own + end];
    let inner = ends[own + many + end];
    exchange(arena, ends, outer, inner);
    add_pair(arena, symbols, outer, inner, made);
}

/// Joins all boundary ends of an interaction, from the highest to the lowest, over the cells of a net that is taken apart: the pair is
/// retired, and the right member is in other cells. No memory is taken.
///
/// The list of ends has the partner of each of the net's `own` free ends, then the partner at the outer side of each of the `many`
/// boundary ends, and then the partners at their inner sides. Afterwards the cells and the list's first `own` ends show the net after the
/// interaction; in cells only the ends at their places have changed. Pairs that it makes over boundary ends are added to `made`, the pair with the
/// highest lowest end first; `made` must have room for `many`. Each live cell has the number of one of the `Symbols`. The order is this project's own
/// choice.
pub fn join_all(
    arena: &mut Arena,
    ends: &mut [EndWord],
    own: usize,
    many: usize,
    symbols: &Symbols,
    made: &mut Vec<(u32, u32)>,
)
    requires ready { (x : Interaction) × IsReadyToJoin symbols.now x own many arena.old ends.old }
    requires symbols { HasSymbols symbols.now arena.old }
    requires room { vec_len made.old + many ≤ vec_capacity made.old }
    ensures done { (x : Interaction) → IsReadyToJoin symbols.now x own many arena.old ends.old → IsDone symbols.now x own arena.new ends.new }
    ensures made { (x : Interaction) → IsReadyToJoin symbols.now x own many arena.old ends.old → AddsMade symbols.now x made.old.items made.new.items }
    ensures kept { KeepsCells arena.old arena.new }
    ensures capacity { vec_capacity made.new ≡ vec_capacity made.old }
{
    for end in (0..many).rev() {
        join(arena, ends, own, many, end, symbols, made);
    }
}
