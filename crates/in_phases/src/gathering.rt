// The agents of a part are gathered.
ghost use Rattle.std.specs.Prelude.{◌≡◌, ◌<◌, ◌≤◌, [], length, OnOk, Some, slice_get};
ghost use Rattle.in_phases.specs.Branches.{HasAgent, HavePlaces, IsBranch};
ghost use Rattle.in_reducer.specs.Machines.{AreNumbersBelow};

use crate::branch::{Branch, OpenPort};
use in_base::{use_invariant, use_promise};
use in_reducer::{CellNo, End, Reducer};
use std::alloc::{AllocError, Global};

impl Branch {
    /// A branch without agents, for nets without numbers.
    pub(crate) fn empty(alloc: Global) -> Branch
        ensures { length result.marks.items ≡ 0 }
    {
        Branch {
            agents: Vec::new(alloc),
            marks: Vec::new(alloc),
            ports: Vec::new(alloc),
        }
    }

    /// Grows the branch for nets whose agents have numbers below this one; it never shrinks. Refused only when out of memory.
    pub(crate) fn reach(&mut self, numbers: u32) -> Result<(), AllocError>
        ensures reached { OnOk result (numbers ≤ length self.new.marks.items) }
        ensures more { length self.old.marks.items ≤ length self.new.marks.items }
    {
        if self.marks.len() < numbers as usize {
            self.marks.resize(numbers as usize, false)?;
        }
        Ok(())
    }

    /// Forgets all agents.
    fn clear(&mut self)
        ensures none { (self.new.agents.items ≡ []) × (self.new.ports.items ≡ []) }
        ensures many { length self.new.marks.items ≡ length self.old.marks.items }
    {
        self.ports.clear();
        while let Some(cell) = self.agents.pop() {
            let number = cell.0 as usize;
            if number < self.marks.len() {
                self.marks[number] = false;
            }
        }
    }

    /// Whether this agent is one of them.
    pub(crate) fn has(&self, cell: CellNo) -> bool
        requires { cell.0 < length self.now.marks.items }
        ensures { slice_get self.now.marks.items cell.0 ≡ Some result }
    {
        self.marks[cell.0 as usize]
    }

    /// Takes in an agent that isn't in it yet.
    fn take_in(&mut self, reducer: &Reducer, cell: CellNo) -> Result<(), AllocError>
        requires branch { IsBranch reducer.now self.old }
        requires there { HasAgent reducer.now cell.0 }
        ensures branch { OnOk result (IsBranch reducer.now self.new) }
        ensures ports { self.new.ports ≡ self.old.ports }
        ensures many { length self.new.marks.items ≡ length self.old.marks.items }
    {
        use_invariant!(*reducer);
        if !self.has(cell) {
            self.agents.push(cell)?;
            self.marks[cell.0 as usize] = true;
        }
        Ok(())
    }

    /// Takes in both agents of each of the first `pairs` pairs.
    fn take_pairs(&mut self, reducer: &Reducer, pairs: u32) -> Result<(), AllocError>
        requires branch { IsBranch reducer.now self.old }
        requires pairs { pairs ≤ length reducer.now.queue }
        ensures branch { OnOk result (IsBranch reducer.now self.new) }
        ensures ports { self.new.ports ≡ self.old.ports }
        ensures many { length self.new.marks.items ≡ length self.old.marks.items }
    {
        for number in 0..pairs {
            let (one, other) = reducer.pair(number);
            self.take_in(reducer, one)?;
            self.take_in(reducer, other)?;
        }
        Ok(())
    }

    /// Takes in each agent whose principal port is joined to an auxiliary port of this one, and lists the other auxiliary ports as open.
    fn take_behind(&mut self, reducer: &Reducer, cell: CellNo) -> Result<(), AllocError>
        requires branch { IsBranch reducer.now self.old }
        requires ports { HavePlaces reducer.now self.old.ports.items }
        requires there { HasAgent reducer.now cell.0 }
        ensures branch { OnOk result (IsBranch reducer.now self.new) }
        ensures ports { OnOk result (HavePlaces reducer.now self.new.ports.items) }
        ensures many { length self.new.marks.items ≡ length self.old.marks.items }
    {
        use_promise!(reducer.pairs());
        for port in 0..reducer.arity(cell) {
            let place = port + 1;
            match reducer.partner(End::Cell(cell, place)) {
                End::Cell(behind, 0) => self.take_in(reducer, behind)?,
                _ => self.ports.push(OpenPort { cell, place })?,
            }
        }
        Ok(())
    }

    /// Takes in the agents behind each of its agents, those behind these, and so on, while it has at most `most` agents.
    fn take_trees(&mut self, reducer: &Reducer, most: u32) -> Result<(), AllocError>
        requires branch { IsBranch reducer.now self.old }
        requires ports { HavePlaces reducer.now self.old.ports.items }
        ensures branch { OnOk result (IsBranch reducer.now self.new) }
        ensures ports { OnOk result (HavePlaces reducer.now self.new.ports.items) }
        ensures many { length self.new.marks.items ≡ length self.old.marks.items }
    {
        for number in 0..reducer.numbers() as usize {
            if number >= self.agents.len() || self.agents.len() > most as usize {
                return Ok(());
            }
            let cell = self.agents[number];
            self.take_behind(reducer, cell)?;
        }
        Ok(())
    }

    /// Forgets its agents, and gathers the trees behind the first `pairs` pairs: both agents of each, each agent whose principal port is joined
    /// to an auxiliary port of one of them, and so on, while there are at most `most` agents. Few wires lead out of whole trees. Refused only when
    /// out of memory.
    pub(crate) fn gather(
        &mut self,
        reducer: &Reducer,
        pairs: u32,
        most: u32,
    ) -> Result<(), AllocError>
        requires reached { AreNumbersBelow reducer.now (length self.old.marks.items) }
        requires pairs { pairs ≤ length reducer.now.queue }
        ensures branch { OnOk result (IsBranch reducer.now self.new) }
        ensures ports { OnOk result (HavePlaces reducer.now self.new.ports.items) }
        ensures many { length self.new.marks.items ≡ length self.old.marks.items }
    {
        self.clear();
        self.take_pairs(reducer, pairs)?;
        self.take_trees(reducer, most)
    }
}
