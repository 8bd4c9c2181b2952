// Agents are written in the cells that were taken for them.
ghost use Rattle.std.specs.Prelude.{◌≡◌, ◌<◌, ◌≤◌, ℕ, length, Some};
ghost use Rattle.in_arena.specs.Arenas.{changed, state_at};
ghost use Rattle.in_arena.specs.Changes.{HasAllCells};
ghost use Rattle.in_arena.specs.States.{IsLive, end_at};
ghost use Rattle.in_arena.specs.declared.content.End.{End as EndOf};
ghost use Rattle.in_cells.specs.Copying.{AreBelow, ArePart, AreClosed, IsEndWithin, LooksLike, moved, name_in, number_in};
ghost use Rattle.in_cells.specs.CopyingSteps.{HaveOwnCells, AreMovedBelow};

use crate::ends::moved_end;
use in_arena::{Arena, CellIndex, CellNo};

// Writes the ends of an agent in its cell.
fn write_agent(from: &Arena, cell: CellNo, names: &[CellIndex], ends: &[u16], to: &mut Arena)
    requires live { IsLive (state_at from.now cell.0) }
    requires named { cell.0 < length names.now }
    requires begun { LooksLike (state_at from.now cell.0) (state_at to.old (name_in names.now cell.0)) }
    requires within { (i : ℕ) (e : EndOf) → end_at (state_at from.now cell.0) i ≡ Some e → IsEndWithin (length names.now) (length ends.now) e }
    ensures { to.new ≡ changed to.old (name_in names.now cell.0) (moved (name_in names.now) (number_in ends.now) (state_at from.now cell.0)) }
{
    let new = names[cell.0 as usize].no();
    for place in 0..from.places(cell) {
        let end = moved_end(names, ends, from.word(cell, place));
        to.set_word(new, place, end);
    }
}

/// Writes the ends of each agent in its cell.
pub fn write_agents(
    from: &Arena,
    agents: &[CellNo],
    names: &[CellIndex],
    ends: &[u16],
    to: &mut Arena,
)
    requires part { ArePart from.now agents.now }
    requires closed { AreClosed from.now agents.now (length ends.now) }
    requires names { AreBelow agents.now (length names.now) }
    requires all { HasAllCells to.old }
    requires cells { HaveOwnCells from.now agents.now names.now to.old }
    ensures { AreMovedBelow from.now agents.now names.now ends.now to.old (length agents.now) to.new }
{
    for number in 0..agents.len() {
        write_agent(from, agents[number], names, ends, to);
    }
}
