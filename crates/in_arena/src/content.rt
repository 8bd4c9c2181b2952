// The contents of a cell.
ghost use Rattle.std.specs.Prelude.{◌≡◌, ◌≤◌, ◌<◌, ◌↔◌, IsTrue};
ghost use Rattle.in_arena.specs.EndWords.{numbers};
ghost use Rattle.in_arena.specs.Classes.{Holds, all_of, amount, class_no, each, first_of, holds, least, width};
ghost use Rattle.in_arena.specs.Limiting.{AreAllowed, most_larger_cells, most_small_cells};
ghost use Rattle.in_arena.specs.declared.content.CellClass.TheVariants.{Wide};

use std::marker::Model;

/// The number of a cell in its arena.
#[derive(Clone, Copy, Debug, PartialEq, Eq, Hash)]
pub struct CellNo(pub u32);

/// The number of a cell that a word can name: it is below 33,554,432, as are those of all cells of an arena. Contracts see the cell's number.
#[derive(Clone, Copy)]
pub struct CellIndex {
    number: u32,
}

impl Model for CellIndex {
    ghost use Rattle.std.specs.Prelude.{◌<◌};
    ghost use Rattle.in_arena.specs.EndWords.{numbers};
    ghost use Rattle.in_arena.specs.declared.content.CellNo.{CellNo};

    ghost Value = { CellNo };

    ghost view = { λ c. record { 0 = c.number } };

    ghost invariant = { λ c. c.number < numbers };

    ghost inverse = { λ c. record { number = c.0 } };
}

impl CellIndex {
    /// The first cell.
    pub fn first() -> CellIndex
        ensures { result ≡ record { 0 = 0 } }
    {
        CellIndex { number: 0 }
    }

    /// The cell of this number, which is below 33,554,432.
    #[inline(always)]
    pub(crate) fn of(cell: CellNo) -> CellIndex
        requires { cell.0 < numbers }
        ensures { result ≡ cell }
    {
        CellIndex { number: cell.0 }
    }

    /// The number.
    #[inline(always)]
    pub fn no(self) -> CellNo
        ensures { result ≡ self }
    {
        CellNo(self.number)
    }
}

/// The word of a live cell, which is the number of its agent's symbol. It is below 33,554,432.
pub type SymbolWord = u32;

/// An end of a wire: a place of a cell, of which 0 is the principal port, or a free end.
#[derive(Clone, Copy, Debug, PartialEq, Eq, Hash)]
pub enum End {
    Cell(CellNo, u8),
    Free(u32),
}

/// The sizes of cells: for agents of arity 0 to 2, of arity 3 to 8, and of arity 9 to 16.
#[derive(Clone, Copy, Debug, PartialEq, Eq)]
pub enum CellClass {
    Small,
    Large,
    Wide,
}

impl CellClass {
    /// All classes in their order. Cells are numbered and free ones are tested in this order.
    pub const ALL: [CellClass; 3] = [CellClass::Small, CellClass::Large, CellClass::Wide];

    /// The number of the class.
    pub fn number(self) -> u32
        ensures { result ≡ class_no self }
    {
        match self {
            CellClass::Small => 0,
            CellClass::Large => 1,
            CellClass::Wide => 2,
        }
    }

    /// The class of cells that are for that many ends, 1 to 17, the principal port's among them.
    pub fn for_places(places: u8) -> CellClass
        requires some { 1 ≤ places }
        requires few { places ≤ width Wide }
        ensures { Holds result places }
    {
        if places <= CellClass::Small.width() {
            CellClass::Small
        } else if places <= CellClass::Large.width() {
            CellClass::Large
        } else {
            CellClass::Wide
        }
    }

    /// The number of ends for which a cell of this class has room, the principal port's among them.
    pub fn width(self) -> u8
        ensures { result ≡ width self }
    {
        match self {
            CellClass::Small => 3,
            CellClass::Large => 9,
            CellClass::Wide => 17,
        }
    }

    /// The least number of ends for a cell of this class: one, or one more than a cell of the class before has room for.
    pub fn least(self) -> u8
        ensures { result ≡ least self }
    {
        match self {
            CellClass::Small => 1,
            CellClass::Large => CellClass::Small.width() + 1,
            CellClass::Wide => CellClass::Large.width() + 1,
        }
    }

    /// Whether a cell of this class is for that many ends, the principal port's among them.
    pub fn holds(self, ends: usize) -> bool
        ensures { result ≡ holds self ends }
    {
        self.least() as usize <= ends && ends <= self.width() as usize
    }
}

/// A number of cells of each class.
#[derive(Clone, Copy, Debug, PartialEq, Eq)]
pub struct CellCounts {
    pub small_cells: u32,
    pub large_cells: u32,
    pub wide_cells: u32,
}

impl CellCounts {
    /// The most cells of each class that an arena may have. Together they are as many as there are numbers in words.
    pub const MOST: CellCounts = CellCounts {
        small_cells: 16_777_216,
        large_cells: 8_388_608,
        wide_cells: 8_388_608,
    };

    /// This number of cells of each class.
    pub fn each(cells: u32) -> CellCounts
        ensures { result ≡ each cells }
    {
        CellCounts {
            small_cells: cells,
            large_cells: cells,
            wide_cells: cells,
        }
    }

    /// The number of cells of a class.
    #[inline(always)]
    pub fn of(self, class: CellClass) -> u32
        ensures { result ≡ amount self class }
    {
        match class {
            CellClass::Small => self.small_cells,
            CellClass::Large => self.large_cells,
            CellClass::Wide => self.wide_cells,
        }
    }

    /// The number of the first cell of a class: the cells of a class come after those of the class before.
    #[inline(always)]
    pub fn first(self, class: CellClass) -> u32
        requires { AreAllowed self }
        ensures { result ≡ first_of self class }
    {
        match class {
            CellClass::Small => 0,
            CellClass::Large => self.small_cells,
            CellClass::Wide => self.small_cells + self.large_cells,
        }
    }

    /// The number of cells of all classes.
    pub fn all(self) -> u32
        requires { AreAllowed self }
        ensures { result ≡ all_of self }
    {
        self.small_cells + self.large_cells + self.wide_cells
    }

    /// Whether an arena may have that many cells: at most 16,777,216 small ones, 8,388,608 large ones and 8,388,608 wide ones, which is this
    /// project's own choice.
    pub fn are_allowed(self) -> bool
        ensures { IsTrue result ↔ AreAllowed self }
    {
        self.small_cells <= CellCounts::MOST.small_cells
            && self.large_cells <= CellCounts::MOST.large_cells
            && self.wide_cells <= CellCounts::MOST.wide_cells
    }
}
