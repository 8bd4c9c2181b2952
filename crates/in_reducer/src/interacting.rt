// One interaction, over cells, of a pair beside its right member.
ghost use Rattle.std.specs.Prelude.{◌≡◌, ◌≤◌, ◌+◌, length, vec_capacity};
ghost use Rattle.in_reducer.specs.Inside.{most_ends};
ghost use Rattle.in_reducer.specs.Interacting.{PairSetting, HasBeside, IsInteracted};
ghost use Rattle.in_reducer.specs.Standing.{IsNetIn, AreLeasedAlike, at_rest};

use crate::sides::{PlacedPair, set_sides};
use in_arena::{Arena, EndWord};
use in_base::use_promise;
use in_cells::join_all;
use in_symbols::Symbols;

/// Does the interaction of a pair beside its right member. Wires may lead back to the pair. The sides of the boundary ends are set, the pair's
/// cells are freed, and the ends are joined one after another, by their present sides. It takes no memory, and other cells may be on lease.
pub(crate) fn interact(
    symbols: &Symbols,
    next: &PlacedPair,
    arena: &mut Arena,
    ends: &mut [EndWord],
    made: &mut Vec<(u32, u32)>,
)
    requires beside { (s : PairSetting) × HasBeside symbols.now s next.now.template.now next.now.pair next.now.own next.now.placed.now.cells arena.old ends.old }
    requires net { IsNetIn symbols.now (at_rest arena.old) }
    requires room { next.now.own + length next.now.template.now.member.joints + length next.now.template.now.member.joints ≤ length ends.old }
    requires made_room { length made.old.items + most_ends ≤ vec_capacity made.old }
    ensures interacted { (s : PairSetting) → HasBeside symbols.now s next.now.template.now next.now.pair next.now.own next.now.placed.now.cells arena.old ends.old → IsInteracted symbols.now s next.now.own next.now.placed.now.cells arena.new ends.new made.old.items made.new.items }
    ensures net { IsNetIn symbols.now (at_rest arena.new) }
    ensures leased { AreLeasedAlike arena.old arena.new }
    ensures long { length ends.new ≡ length ends.old }
    ensures made_room { vec_capacity made.new ≡ vec_capacity made.old }
{
    let many = u32::from(next.template.boundary_ends());
    use_promise!(next.template.member().is_sound());
    set_sides(arena, next, ends);
    arena.retire(next.pair.one);
    arena.retire(next.pair.other);
    join_all(arena, ends, next.own as usize, many as usize, symbols, made);
}
