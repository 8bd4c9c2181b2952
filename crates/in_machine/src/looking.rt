// The view of a machine.
ghost use Rattle.std.specs.Prelude.{◌≡◌, ◌<◌, ◌≤◌, ◌↔◌, IsTrue, length, count_by, is_some, Some, IsSome, slice_get, option_map};
ghost use Rattle.in_symbols.specs.Names.{name_in};
ghost use Rattle.in_symbols.specs.Tables.{arity_of};
ghost use Rattle.in_net.specs.Parts.{IsPointOf, symbol_in, partner_in, free_name_in};
ghost use Rattle.in_arena.specs.declared.content.CellClass.{CellClass as Class};
ghost use Rattle.in_compile.specs.Cells.{count_of};
ghost use Rattle.in_reducer.specs.Machines.{parts_of, point_at};
ghost use Rattle.in_reducer.specs.Steps.{NeedsAt, HasRoomAt};
ghost use Rattle.in_machine.specs.Machines.{IsMachine};

use crate::machine::Machine;
use in_arena::{CellClass, CellNo, End};
use in_compile::Need;
use in_syntax::SymbolNo;

impl<'a> Machine<'a> {
    /// The number of active pairs left.
    pub fn pairs(&self) -> u32
        ensures count { result ≡ length self.now.queue }
        ensures machine { IsMachine self.now }
    {
        self.reducer.pairs()
    }

    /// The active pair of that number in the queue, the constructor first.
    pub fn pair(&self, number: u32) -> (CellNo, CellNo)
        requires { number < length self.now.queue }
        ensures pair { slice_get self.now.queue number ≡ Some (result.0.0, result.1.0) }
        ensures agents { IsSome (symbol_in (parts_of self.now) result.0.0) × IsSome (symbol_in (parts_of self.now) result.1.0) }
    {
        self.reducer.pair(number)
    }

    /// The number of free cells of this class.
    pub fn free(&self, class: CellClass) -> u32
        ensures { result ≡ count_of self.now.vacant class }
    {
        self.reducer.free(class)
    }

    /// The number of free cells of each class.
    pub fn vacant(&self) -> Need
        ensures { result ≡ self.now.vacant }
    {
        self.reducer.vacant()
    }

    /// The least number of free cells of a class.
    pub fn least_free(&self) -> u32
        ensures least { (c : Class) → result ≤ count_of self.now.vacant c }
        ensures one { (c : Class) × (count_of self.now.vacant c ≡ result) }
    {
        self.reducer.least_free()
    }

    /// The number of agents.
    pub fn agents(&self) -> u32
        ensures { result ≡ count_by is_some self.now.agents }
    {
        self.reducer.agents()
    }

    /// The count of numbers for agents: those of all cells, free or not.
    pub fn numbers(&self) -> u32
        ensures { result ≡ length self.now.agents }
    {
        self.reducer.numbers()
    }

    /// The partner of a place of an agent, of which 0 is the principal port, or of a free end.
    pub fn partner(&self, end: End) -> End
        requires { IsPointOf (parts_of self.now) (point_at end) }
        ensures { partner_in (parts_of self.now) (point_at end) ≡ Some (point_at result) }
    {
        self.reducer.partner(end)
    }

    /// The symbol of an agent.
    pub fn symbol(&self, cell: CellNo) -> SymbolNo
        requires { IsSome (symbol_in (parts_of self.now) cell.0) }
        ensures { symbol_in (parts_of self.now) cell.0 ≡ Some result }
    {
        self.reducer.symbol(cell)
    }

    /// The number of an agent's auxiliary ports.
    pub fn arity(&self, cell: CellNo) -> u8
        requires { IsSome (symbol_in (parts_of self.now) cell.0) }
        ensures { option_map (λ s. arity_of self.now.program.tables s.0) (symbol_in (parts_of self.now) cell.0) ≡ Some result }
    {
        self.reducer.checked().symbols().arity(self.symbol(cell))
    }

    /// The name of an agent's symbol.
    pub fn symbol_name(&self, cell: CellNo) -> &str
        requires { IsSome (symbol_in (parts_of self.now) cell.0) }
        ensures { option_map (λ s. name_in s.0 self.now.program.tables.names) (symbol_in (parts_of self.now) cell.0) ≡ Some result.now }
    {
        self.reducer.checked().symbols().name(self.symbol(cell))
    }

    /// The number of the net's free ends.
    pub fn free_ends(&self) -> u32
        ensures { result ≡ length self.now.free }
    {
        self.reducer.free_ends()
    }

    /// The name of a free end.
    pub fn free_name(&self, number: u32) -> &str
        requires { number < length self.now.free }
        ensures { Some result.now ≡ free_name_in (parts_of self.now) number }
    {
        self.reducer.free_name(number)
    }

    /// The number of cells of each class that the interaction of the pair of that number needs: for the agents of its rule's right member. They must be
    /// free while the pair is still there.
    pub fn need_of(&self, number: u32) -> Need
        requires { number < length self.now.queue }
        ensures { NeedsAt self.now number result }
    {
        self.reducer.need_of(&self.templates, number)
    }

    /// Whether the cells that the pair of that number needs are free, so that `step` may do its interaction.
    pub fn has_room(&self, number: u32) -> bool
        requires { number < length self.now.queue }
        ensures { IsTrue result ↔ HasRoomAt self.now number }
    {
        self.reducer.has_room(&self.templates, number)
    }
}
