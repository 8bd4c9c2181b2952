// The view of a reducer.
ghost use Rattle.std.specs.Prelude.{◌≡◌, ◌<◌, ◌≤◌, length, count_by, is_some, Some, IsSome, slice_get, option_map};
ghost use Rattle.in_symbols.specs.Tables.{arity_of};
ghost use Rattle.in_net.specs.Parts.{IsPointOf, symbol_in, partner_in, free_name_in};
ghost use Rattle.in_arena.specs.declared.content.CellClass.{CellClass as Class};
ghost use Rattle.in_compile.specs.Cells.{count_of};
ghost use Rattle.in_reducer.specs.Machines.{AreNumbersBelow, parts_of, point_at};
ghost use Rattle.in_reducer.specs.Reducers.{IsReducer};

use crate::body::OwnEnd;
use crate::reducer::Reducer;
use in_arena::{CellClass, CellNo, End};
use in_check::Checked;
use in_compile::Need;
use in_syntax::SymbolNo;

impl<'a> Reducer<'a> {
    /// Its program.
    pub fn checked(&self) -> &'a Checked
        ensures { result.now.program ≡ self.now.program }
    {
        self.body.checked
    }

    /// The number of active pairs left.
    pub fn pairs(&self) -> u32
        ensures count { result ≡ length self.now.queue }
        ensures reducer { IsReducer self.now }
    {
        self.body.queue.len() as u32
    }

    /// The active pair of that number in the queue, the constructor first.
    pub fn pair(&self, number: u32) -> (CellNo, CellNo)
        requires { number < length self.now.queue }
        ensures pair { slice_get self.now.queue number ≡ Some (result.0.0, result.1.0) }
        ensures agents { IsSome (symbol_in (parts_of self.now) result.0.0) × IsSome (symbol_in (parts_of self.now) result.1.0) }
    {
        let (one, other) = self.body.queue.at(number as usize);
        (CellNo(one), CellNo(other))
    }

    /// The number of free cells of this class.
    pub fn free(&self, class: CellClass) -> u32
        ensures { result ≡ count_of self.now.vacant class }
    {
        self.body.arena.free_count(class)
    }

    /// The number of free cells of each class.
    pub fn vacant(&self) -> Need
        ensures { result ≡ self.now.vacant }
    {
        Need::free_in(&self.body.arena)
    }

    /// The least number of free cells of a class.
    pub fn least_free(&self) -> u32
        ensures least { (c : Class) → result ≤ count_of self.now.vacant c }
        ensures one { (c : Class) × (count_of self.now.vacant c ≡ result) }
    {
        self.vacant().least()
    }

    /// The count of numbers for agents: those of all cells, free or not.
    pub fn numbers(&self) -> u32
        ensures { result ≡ length self.now.agents }
    {
        self.body.arena.all_cells()
    }

    /// A number above those of all agents.
    pub fn bound(&self) -> u32
        ensures above { AreNumbersBelow self.now result }
        ensures few { result ≤ length self.now.agents }
    {
        self.body.arena.bound()
    }

    /// The number of agents.
    pub fn agents(&self) -> u32
        ensures { result ≡ count_by is_some self.now.agents }
    {
        let mut agents = 0;
        for class in CellClass::ALL {
            agents += self.body.arena.cells().of(class) - self.body.arena.free_count(class);
        }
        agents
    }

    /// The partner of a place of an agent, of which 0 is the principal port, or of a free end.
    pub fn partner(&self, end: End) -> End
        requires { IsPointOf (parts_of self.now) (point_at end) }
        ensures { partner_in (parts_of self.now) (point_at end) ≡ Some (point_at result) }
    {
        match end {
            End::Cell(cell, place) => self.body.arena.port(cell, place),
            End::Free(number) => self.body.ends[number as usize].end(),
        }
    }

    /// The number of an agent's auxiliary ports.
    pub fn arity(&self, cell: CellNo) -> u8
        requires { IsSome (symbol_in (parts_of self.now) cell.0) }
        ensures { option_map (λ s. arity_of self.now.program.tables s.0) (symbol_in (parts_of self.now) cell.0) ≡ Some result }
    {
        self.body.checked.symbols().arity(self.symbol(cell))
    }

    /// The symbol of an agent.
    pub fn symbol(&self, cell: CellNo) -> SymbolNo
        requires { IsSome (symbol_in (parts_of self.now) cell.0) }
        ensures { symbol_in (parts_of self.now) cell.0 ≡ Some result }
    {
        self.body.symbol(cell)
    }

    /// The number of the net's free ends.
    pub fn free_ends(&self) -> u32
        ensures { result ≡ length self.now.free }
    {
        self.body.free.len() as u32
    }

    /// The name of a free end; an end of a cut wire has none, and its name is the empty text.
    pub fn free_name(&self, number: u32) -> &str
        requires { number < length self.now.free }
        ensures { Some result.now ≡ free_name_in (parts_of self.now) number }
    {
        match self.body.free[number as usize] {
            OwnEnd::Named(of_program) => self.body.checked.net().free_name(of_program),
            OwnEnd::Cut(_) => "",
        }
    }
}
