// Cells are taken for agents that will be copied.
ghost use Rattle.std.specs.Prelude.{◌≡◌, ◌≤◌, ◌<◌, length};
ghost use Rattle.in_arena.specs.Arenas.{free_of, state_at};
ghost use Rattle.in_arena.specs.Changes.{HasAllCells};
ghost use Rattle.in_arena.specs.Classes.{Holds};
ghost use Rattle.in_arena.specs.States.{IsLive, places};
ghost use Rattle.in_arena.specs.declared.content.CellClass.{CellClass as Class};
ghost use Rattle.in_cells.specs.Copying.{AreBelow, ArePart, HasCellsFor};
ghost use Rattle.in_cells.specs.CopyingSteps.{TakesCell, HaveCellsBelow};

use in_arena::{Arena, CellClass, CellIndex, CellNo};

// Takes a cell for an agent. Its symbol word is written, and its ends are open.
fn take_cell(from: &Arena, cell: CellNo, to: &mut Arena) -> CellIndex
    requires live { IsLive (state_at from.now cell.0) }
    requires all { HasAllCells to.old }
    requires free { (c : Class) → Holds c (places (state_at from.now cell.0)) → 0 < free_of to.old c }
    ensures { TakesCell (state_at from.now cell.0) to.old result.0 to.new }
{
    let class = CellClass::for_places(from.places(cell));
    let Some(new) = to.begin(class, from.head(cell)) else {
        // A cell of that class is free.
        unreachable!()
    };
    new
}

/// Takes a cell for each agent, and writes the cell's number in `names` at the agent's number.
pub fn take_cells(from: &Arena, agents: &[CellNo], to: &mut Arena, names: &mut [CellIndex])
    requires part { ArePart from.now agents.now }
    requires all { HasAllCells to.old }
    requires room { HasCellsFor from.now agents.now to.old }
    requires names { AreBelow agents.now (length names.old) }
    ensures taken { HaveCellsBelow from.now agents.now to.old (length agents.now) to.new names.new }
    ensures names { length names.new ≡ length names.old }
{
    for number in 0..agents.len() {
        let agent = agents[number];
        names[agent.0 as usize] = take_cell(from, agent, to);
    }
}
