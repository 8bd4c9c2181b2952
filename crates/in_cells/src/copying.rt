// Agents of one arena are copied to another.
ghost use Rattle.std.specs.Prelude.{◌≡◌, length};
ghost use Rattle.in_cells.specs.Copying.{AreBelow, ArePart, AreClosed, HasCellsFor, IsCopied};

use crate::taking::take_cells;
use crate::writing::write_agents;
use in_arena::{Arena, CellIndex, CellNo};
use in_base::use_promise;

/// Copies agents to another arena, each to a free cell there of the class for its places. They are live cells of `from`, each named
/// once, whose places lead to each other and to free ends below the length of `ends`. Afterwards each place of a copy leads to the same point as
/// before, to cells by their new numbers and to free end k by the number `ends[k]`. The new number of a cell is written at its number in `names`,
/// which is long enough for that. Each class of `to` must have as many free cells as the agents take. It takes no memory.
pub fn copy(from: &Arena, agents: &[CellNo], ends: &[u16], to: &mut Arena, names: &mut [CellIndex])
    requires part { ArePart from.now agents.now }
    requires closed { AreClosed from.now agents.now (length ends.now) }
    requires room { HasCellsFor from.now agents.now to.old }
    requires names { AreBelow agents.now (length names.old) }
    ensures copied { IsCopied from.now agents.now ends.now names.new to.old to.new }
    ensures names { length names.new ≡ length names.old }
{
    use_promise!(to.cells());
    take_cells(from, agents, to, names);
    write_agents(from, agents, names, ends, to);
}
