// A wire that is cut.
ghost use Rattle.std.specs.Prelude.{◌≡◌, ◌≤◌, ◌<◌, ◌+◌, ℕ, suc, length, take};
ghost use Rattle.in_arena.specs.Arenas.{state_at};
ghost use Rattle.in_arena.specs.EndWords.{numbers};
ghost use Rattle.in_arena.specs.States.{places};
ghost use Rattle.in_net.specs.Nets.{Net, Signature};
ghost use Rattle.in_cells.specs.Cells.{KeepsCells};
ghost use Rattle.in_cells.specs.Shown.{IsShown};
ghost use Rattle.in_cells.specs.Cutting.{IsCutAt, Shows};

use crate::exchanging::exchange;
use in_arena::{Arena, CellNo, EndWord};

/// Cuts the wire at a place of a live cell. The list of ends has the partner of each of the net's `own` free ends, and then room for two more.
/// Afterwards the place leads to the free end after these, and its old partner to the one after that; all else is as it was. It takes no memory.
pub fn cut(arena: &mut Arena, ends: &mut [EndWord], own: u32, cell: CellNo, place: u8)
    requires shown { (sig : Signature) × (w : Net ℕ) × Shows sig own arena.old ends.old w }
    requires there { place < places (state_at arena.old cell.0) }
    requires room { own + 2 ≤ length ends.old }
    requires few { own + 2 ≤ numbers }
    ensures cut { (sig : Signature) (w m : Net ℕ) → Shows sig own arena.old ends.old w → IsShown arena.new (take (own + 2) ends.new) m → IsCutAt w cell.0 place own m }
    ensures kept { KeepsCells arena.old arena.new }
    ensures long { length ends.new ≡ length ends.old }
{
    let here = arena.place(cell, place);
    let other = arena.word(cell, place);
    exchange(arena, ends, here, EndWord::free(own));
    exchange(arena, ends, other, EndWord::free(own + 1));
}
