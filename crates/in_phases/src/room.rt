// Lists that are used for one part after another.
ghost use Rattle.std.specs.Prelude.{◌≡◌, ◌≤◌, length, OnOk};
ghost use Rattle.in_phases.specs.Rooms.{HasNoRoom, KeepsRoom};

use crate::branch::Branch;
use in_reducer::CellIndex;
use std::alloc::{AllocError, Global};

/// Lists with a place for each number of an agent, for gathering and moving parts. They are as long as the nets required so far, and serve
/// all phases of a run.
#[derive(Drop)]
pub struct Room {
    pub(crate) branch: Branch,
    pub(crate) names: Vec<CellIndex>,
}

impl Room {
    /// Room for no number yet. It takes no memory.
    pub fn new(alloc: Global) -> Room
        ensures { HasNoRoom result }
    {
        Room {
            branch: Branch::empty(alloc),
            names: Vec::new(alloc),
        }
    }

    /// Makes room for agents with numbers below this one. Refused only when out of memory.
    pub(crate) fn reach(&mut self, numbers: u32) -> Result<(), AllocError>
        ensures reached { OnOk result (numbers ≤ length self.new.branch.marks.items) }
        ensures grown { KeepsRoom self.old self.new }
    {
        self.branch.reach(numbers)
    }

    /// Makes room for that many new numbers. Refused only when out of memory.
    pub(crate) fn reach_names(&mut self, numbers: usize) -> Result<(), AllocError>
        ensures reached { OnOk result (numbers ≤ length self.new.names.items) }
        ensures grown { KeepsRoom self.old self.new }
        ensures branch { self.new.branch ≡ self.old.branch }
    {
        if self.names.len() < numbers {
            self.names.reserve_exact(numbers - self.names.len())?;
            self.names.resize(numbers, CellIndex::first())?;
        }
        Ok(())
    }
}
