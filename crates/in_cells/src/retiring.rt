// Agents leave an arena.
ghost use Rattle.in_cells.specs.Copying.{ArePart};
ghost use Rattle.in_cells.specs.TakingOut.{AreClassed, AreRetired};

use in_arena::{Arena, CellNo};
use in_base::use_promise;

/// Frees the cells of these agents, which are live, of the classes for their places and each named once. It takes no memory.
pub fn retire_all(arena: &mut Arena, agents: &[CellNo])
    requires part { ArePart arena.old agents.now }
    requires classed { AreClassed arena.old agents.now }
    ensures { AreRetired agents.now arena.old arena.new }
{
    use_promise!(arena.cells());
    for number in 0..agents.len() {
        arena.retire(agents[number]);
    }
}
