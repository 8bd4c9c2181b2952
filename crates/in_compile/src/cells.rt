// Cells by their classes: the class for an agent, and the numbers that are needed.
ghost use Rattle.std.specs.Prelude.{◌≡◌, ◌≤◌, ◌<◌, ◌+◌, ◌^◌, ◌↔◌, IsTrue, true, length, max, MatchOption};
ghost use Rattle.in_arena.specs.Arenas.{free_of};
ghost use Rattle.in_arena.specs.Classes.{amount};
ghost use Rattle.in_symbols.specs.Tables.{IsSymbol};
ghost use Rattle.in_net.specs.Built.{IsOver};
ghost use Rattle.in_open_nets_of_programs.specs.Opening.{AreAllThere};
ghost use Rattle.in_compile.specs.Cells.{is_of, agents_of, count_of, IsNeedOf, IsEnough, IsFirstShort};

use in_arena::{Arena, CellClass, CellCounts};
use in_net::{AgentNo, Net};
use in_symbols::Symbols;
use in_syntax::SymbolNo;

/// Whether `need` cells more than the floor are free.
fn is_above(free: u32, need: u32, floor: u32) -> bool
    ensures { IsTrue result ↔ floor + need ≤ free }
{
    u64::from(need) + u64::from(floor) <= u64::from(free)
}

/// Numbers of cells, one for each class: the numbers that an interaction needs, or the numbers of free cells.
#[derive(Clone, Copy, Debug, PartialEq, Eq)]
pub struct Need {
    pub small: u32,
    pub large: u32,
    pub wide: u32,
}

impl Need {
    ghost use Rattle.in_arena.specs.declared.content.CellClass.{CellClass};

    /// The number that `count` gives for each class.
    #[inline(always)]
    pub fn by_class<F: Fn(CellClass) -> u32>(count: F) -> Need
        requires { F.IsAlwaysCallable count }
        ensures { (c : CellClass) → F.post count c (count_of result c) }
    {
        Need {
            small: count(CellClass::Small),
            large: count(CellClass::Large),
            wide: count(CellClass::Wide),
        }
    }

    /// The same number for each class.
    pub fn each(count: u32) -> Need
        ensures { (c : CellClass) → count_of result c ≡ count }
    {
        Need::by_class(|_class| count)
    }

    /// For each class, the greater of the two numbers.
    pub fn or_more(self, other: Need) -> Need
        ensures { (c : CellClass) → count_of result c ≡ max (count_of self c) (count_of other c) }
    {
        Need::by_class(|class| self.of(class).max(other.of(class)))
    }

    /// As many as there are cells of each class.
    pub fn of_counts(cells: CellCounts) -> Need
        ensures { (c : CellClass) → count_of result c ≡ amount cells c }
    {
        Need::by_class(|class| cells.of(class))
    }

    /// The number of free cells of each class in an arena.
    pub fn free_in(arena: &Arena) -> Need
        ensures { (c : CellClass) → count_of result c ≡ free_of arena.now c }
    {
        Need::by_class(|class| arena.free_count(class))
    }

    /// The least of the numbers.
    pub fn least(self) -> u32
        ensures least { (c : CellClass) → result ≤ count_of self c }
        ensures one { (c : CellClass) × (count_of self c ≡ result) }
    {
        let mut least = self.of(CellClass::ALL[0]);
        for class in CellClass::ALL {
            least = least.min(self.of(class));
        }
        least
    }

    /// Whether these are, for each class, at least as many as needed and `floor` more.
    pub fn has_besides(self, need: Need, floor: u32) -> bool
        ensures { IsTrue result ↔ ((c : CellClass) → floor + count_of need c ≤ count_of self c) }
    {
        for class in CellClass::ALL {
            if !is_above(self.of(class), need.of(class), floor) {
                return false;
            }
        }
        true
    }

    /// The number for this class.
    pub fn of(self, class: CellClass) -> u32
        ensures { result ≡ count_of self class }
    {
        match class {
            CellClass::Small => self.small,
            CellClass::Large => self.large,
            CellClass::Wide => self.wide,
        }
    }

    /// The first class of which more are needed than are free; `None` if enough of each class are free.
    pub fn first_short(self, free: Need) -> Option<CellClass>
        ensures { MatchOption result (IsEnough (count_of self) (count_of free)) (IsFirstShort (count_of self) (count_of free)) }
    {
        for class in CellClass::ALL {
            if free.of(class) < self.of(class) {
                return Some(class);
            }
        }
        None
    }
}

/// Whether an agent of this symbol takes a cell of this class.
pub fn is_of(symbols: &Symbols, class: CellClass, symbol: SymbolNo) -> bool
    requires { IsSymbol symbols.now symbol.0 }
    ensures { result ≡ is_of symbols.now class symbol.0 }
{
    class.holds(symbols.arity(symbol) as usize + 1)
}

/// The class of the cell that an agent of this symbol takes.
pub(crate) fn class_of(symbols: &Symbols, symbol: SymbolNo) -> CellClass
    requires { IsSymbol symbols.now symbol.0 }
    ensures { is_of symbols.now result symbol.0 ≡ true }
{
    CellClass::for_places(symbols.arity(symbol) + 1)
}

/// The number of agents of the net that take a cell of this class. The net is as built: each of its numbers has an agent.
fn agents_of(symbols: &Symbols, net: &Net, class: CellClass) -> u32
    requires over { IsOver symbols.now net.now }
    requires there { AreAllThere net.now }
    ensures { result ≡ agents_of symbols.now class net.now.cells }
{
    let mut count = 0;
    for number in 0..net.agents() {
        if let Some(symbol) = net.symbol(AgentNo(number)) {
            if is_of(symbols, class, symbol) {
                count += 1;
            }
        }
    }
    count
}

/// The number of cells of each class that the agents of a net as built take.
pub fn need_of_net(symbols: &Symbols, net: &Net) -> Need
    requires over { IsOver symbols.now net.now }
    requires there { AreAllThere net.now }
    ensures { IsNeedOf symbols.now net.now.cells result }
{
    Need::by_class(|class| agents_of(symbols, net, class))
}
