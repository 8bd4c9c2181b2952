// A machine, its start, and its interactions.
ghost use Rattle.std.specs.Prelude.{◌≡◌, ◌<◌, ◌≤◌, ℕ, suc, true, false, length};
ghost use Rattle.in_check.specs.Plain.{IsReachedBy};
ghost use Rattle.in_arena.specs.Classes.{each};
ghost use Rattle.in_arena.specs.declared.content.CellClass.{CellClass};
ghost use Rattle.in_compile.specs.Cells.{count_of};
ghost use Rattle.in_reducer.specs.Limiting.{AreAllowed, least_cells, most_cells};
ghost use Rattle.in_reducer.specs.Machines.{plain_of};
ghost use Rattle.in_reducer.specs.Parting.{ReducesTo};
ghost use Rattle.in_reducer.specs.Steps.{HasRoomAt, StepsAt};
ghost use Rattle.in_reducer.specs.Taking.{TakesNoLast};
ghost use Rattle.in_reducer.specs.Same.{RunsUpToNumbers};
ghost use Rattle.in_machine.specs.Phases.{IsPhase};
ghost use Rattle.in_machine.specs.Starts.{Starts};
ghost use Rattle.in_machine.specs.Taking.{TakesNoFirst};

use crate::starting::StartFault;
use in_arena::CellCounts;
use in_base::use_promise;
use in_check::Checked;
use in_compile::{Need, Templates, compile, need_of_net};
use in_reducer::Reducer;
use std::alloc::Global;
use std::marker::Model;

/// The state of a run over a number of cells: the active pairs of its net are in a queue, and for each class of agents a number of cells is
/// free. Its program reaches the net.
///
/// A round lends the cells of its reducer to workers, so both fields can be named outside. Code that changes one proves the invariant again.
#[derive(Drop)]
pub struct Machine<'a> {
    pub templates: Templates,
    pub reducer: Reducer<'a>,
}

// Contracts see the net that it reduces. Its invariant is that the program reaches this net; a reducer's invariant doesn't say so.
impl<'a> Model for Machine<'a> {
    ghost use Rattle.in_compile.specs.Templates.{AreTemplatesOf};
    ghost use Rattle.in_reducer.specs.Machines.{MachineParts};
    ghost use Rattle.in_machine.specs.Machines.{IsMachine};

    ghost Value = { MachineParts };

    ghost view = { λ m. m.reducer };

    ghost invariant = { λ m. IsMachine m.reducer × AreTemplatesOf m.reducer.program m.templates };
}

impl<'a> Machine<'a> {
    /// A machine of the program's net with `cells` cells of each class, as by `with_counts`.
    pub fn new(alloc: Global, checked: &'a Checked, cells: u32) -> Result<Machine<'a>, StartFault>
        requires least { least_cells ≤ cells }
        requires most { cells ≤ most_cells }
        ensures { Starts checked.now.program (each cells) result }
    {
        Machine::with_counts(alloc, checked, CellCounts::each(cells))
    }

    /// A machine of the program's net with that many cells of each class. Its pairs are queued in the order of the places of their wires,
    /// which is this project's own choice, as are the sizes of cells.
    ///
    /// Refused as `Full` if the net has more agents of a class than cells, tested in the order of the classes, or when out of memory. No
    /// other call takes memory.
    pub fn with_counts(
        alloc: Global,
        checked: &'a Checked,
        cells: CellCounts,
    ) -> Result<Machine<'a>, StartFault>
        requires { AreAllowed cells }
        ensures { Starts checked.now.program cells result }
    {
        use_promise!(checked.is_accepted());
        let need = need_of_net(checked.symbols(), checked.net());
        if let Some(class) = need.first_short(Need::of_counts(cells)) {
            return Err(StartFault::Full {
                class,
                need: need.of(class),
                free: cells.of(class),
            });
        }
        let templates = compile(alloc, checked)?;
        let reducer = Reducer::new(alloc, checked, &templates, cells)?;
        Ok(Machine { templates, reducer })
    }

    /// Does the interaction of the pair of that number, by the rule of its symbols: Lafont 1990's, as of `Plain::step` of `in_check`. The pair
    /// leaves the queue, and the new pairs come last, by the lowest-numbered boundary end on the path that made each, and then the right
    /// member's own; the cells of the pair become free, and those of the new agents live. The cells that the pair needs must be free while it is
    /// still there. It takes no memory.
    pub fn step(&mut self, number: u32)
        requires pair { number < length self.old.queue }
        requires room { HasRoomAt self.old number }
        ensures steps { StepsAt self.old number self.new }
        ensures counted { (k : ℕ) → IsReachedBy (plain_of self.old) k → IsReachedBy (plain_of self.new) (suc k) }
    {
        self.reducer.step(&self.templates, number);
    }

    /// Does interactions of the first pair of the queue, one after another, at most `most`, first in, first out. It does fewer only if no pair is
    /// left, or the cells for the first one aren't free. Returns their number. They are those of a machine that is this one up to the numbers of
    /// agents: so an agent may continue under another number, and a new one may have the number of one that is gone. It takes no memory.
    pub fn take_first(&mut self, most: u64) -> u64
        ensures runs { RunsUpToNumbers self.old result self.new }
        ensures most { result ≤ most }
        ensures fewer { result < most → TakesNoFirst self.new }
    {
        self.reducer.take_first(&self.templates, most)
    }

    /// Does interactions of the last pair of the queue, one after another, at most `most`, the newest pair first: the newest agents are still in the
    /// cache, and the net stays small. It does fewer only if no pair is left, or the cells of the last one aren't free with `floor` more of each
    /// class. If `floor` cells of each class are free before, they are after. Returns the number of interactions. The net is one to which as many
    /// interactions lead from this one, so the program reaches it by as many more. It takes no memory.
    pub fn take_newest(&mut self, floor: u32, most: u64) -> u64
        ensures phase { IsPhase self.old result self.new }
        ensures most { result ≤ most }
        ensures floor { ((c : CellClass) → floor ≤ count_of self.old.vacant c) → (c : CellClass) → floor ≤ count_of self.new.vacant c }
        ensures fewer { result < most → TakesNoLast floor self.new }
        ensures reduces { ReducesTo self.old result self.new }
    {
        let count = self.reducer.take_newest(&self.templates, floor, most);
        use_promise!(self.reducer.pairs());
        count
    }
}
