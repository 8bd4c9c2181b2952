// Where the words of a cell are in the row.
ghost use Rattle.std.specs.Prelude.{◌≡◌, ◌≤◌, ◌<◌, ◌+◌, ◌*◌, ℕ};
ghost use Rattle.in_arena.specs.ByClass.{HasPlace, IsPlace};
ghost use Rattle.in_arena.specs.Classes.{all_of, amount, first_of, width};
ghost use Rattle.in_arena.specs.Limiting.{AreAllowed};
ghost use Rattle.in_arena.specs.Words.{far_start, middle_start, slot_of, spot, words_of};
ghost use Rattle.in_arena.specs.Starts.{AreStarts};
ghost use Rattle.in_arena.specs.declared.content.CellClass.{CellClass as Class};

use crate::content::{CellClass, CellCounts, CellNo};

/// A cell by its class and its number within the class, where there are `cells` of each class.
#[derive(Clone, Copy)]
pub struct Spot {
    pub class: CellClass,
    pub index: u32,
    pub cells: CellCounts,
}

/// The cell of this number, where there are `cells` of each class.
#[inline(always)]
pub fn spot_of(cells: CellCounts, cell: CellNo) -> Spot
    requires { AreAllowed cells × (cell.0 < all_of cells) }
    ensures { (result.cells ≡ cells) × IsPlace cells cell.0 result.class result.index }
{
    if cell.0 < cells.small_cells {
        Spot {
            class: CellClass::Small,
            index: cell.0,
            cells,
        }
    } else if cell.0 - cells.small_cells < cells.large_cells {
        Spot {
            class: CellClass::Large,
            index: cell.0 - cells.small_cells,
            cells,
        }
    } else {
        Spot {
            class: CellClass::Wide,
            index: cell.0 - cells.small_cells - cells.large_cells,
            cells,
        }
    }
}

/// The slot of the head among the first words of a cell.
pub const HEAD: u8 = 3;

/// The word of one of the first three places of a cell, or of its head, which comes after these.
#[inline(always)]
pub fn near_word(cell: CellNo, slot: u8) -> usize
    ensures { result ≡ 4 * cell.0 + slot }
{
    4 * cell.0 as usize + slot as usize
}

/// The number of words of the row, where there are `cells` of each class: four for each cell, six more for a large and a wide one, and eight more for a
/// wide one.
pub fn words_of(cells: CellCounts) -> usize
    requires { AreAllowed cells }
    ensures { result ≡ words_of cells }
{
    far_start(cells) + 8 * cells.wide_cells as usize
}

/// Where the second part of the row begins.
fn middle_start(cells: CellCounts) -> usize
    requires { AreAllowed cells }
    ensures { result ≡ middle_start cells }
{
    4 * cells.all() as usize
}

/// Where its third part begins.
fn far_start(cells: CellCounts) -> usize
    requires { AreAllowed cells }
    ensures { result ≡ far_start cells }
{
    middle_start(cells) + 6 * (cells.large_cells as usize + cells.wide_cells as usize)
}

/// Where the second and the third part of the row begin, and how many cells of each class there are, with the number of its first one, by the numbers
/// of the classes: kept, so that none is computed for each place or cell.
#[derive(Clone, Copy)]
pub struct Starts {
    middle: usize,
    far: usize,
    amounts: [u32; 3],
    firsts: [u32; 3],
}

impl Starts {
    /// Of the row where there are `cells` of each class.
    pub fn in_row(cells: CellCounts) -> Starts
        requires { AreAllowed cells }
        ensures { AreStarts cells result }
    {
        Starts {
            middle: middle_start(cells),
            far: far_start(cells),
            amounts: [cells.small_cells, cells.large_cells, cells.wide_cells],
            firsts: [0, cells.small_cells, cells.small_cells + cells.large_cells],
        }
    }

    /// The number of cells of a class.
    #[inline(always)]
    pub fn amount(&self, class: CellClass) -> u32
        ensures { (cells : CellCounts) → AreStarts cells self.now → result ≡ amount cells class }
    {
        self.amounts[class.number() as usize]
    }

    /// The number of the first cell of a class.
    #[inline(always)]
    pub fn first(&self, class: CellClass) -> u32
        ensures { (cells : CellCounts) → AreStarts cells self.now → result ≡ first_of cells class }
    {
        self.firsts[class.number() as usize]
    }
}

/// The word of a place that the cell has, where there are `cells` of each class.
#[inline(always)]
pub fn place_word(cells: CellCounts, starts: Starts, cell: CellNo, place: u8) -> usize
    requires cells { AreAllowed cells × HasPlace cells cell.0 place }
    requires starts { AreStarts cells starts }
    ensures { (c : Class) (i : ℕ) → IsPlace cells cell.0 c i → result ≡ spot c cells i (slot_of place) }
{
    if place < HEAD {
        return near_word(cell, place);
    }
    far_word(cells, starts, cell, place)
}

/// The same for a place behind the first three.
#[inline(always)]
pub fn far_word(cells: CellCounts, starts: Starts, cell: CellNo, place: u8) -> usize
    requires cells { AreAllowed cells × HasPlace cells cell.0 place }
    requires starts { AreStarts cells starts }
    requires place { 3 ≤ place }
    ensures { (c : Class) (i : ℕ) → IsPlace cells cell.0 c i → result ≡ spot c cells i (slot_of place) }
{
    let number = cell.0 as usize - cells.small_cells as usize;
    if place < 9 {
        starts.middle + 6 * number + (place as usize - 3)
    } else {
        starts.far + 8 * (number - cells.large_cells as usize) + (place as usize - 9)
    }
}

impl Spot {
    /// The number of the cell among all cells.
    #[inline(always)]
    pub fn cell(self) -> CellNo
        requires { AreAllowed self.cells × (self.index < amount self.cells self.class) }
        ensures { result.0 ≡ first_of self.cells self.class + self.index }
    {
        CellNo(self.cells.first(self.class) + self.index)
    }

    /// The word of its head.
    #[inline(always)]
    pub fn head(self) -> usize
        requires { AreAllowed self.cells × (self.index < amount self.cells self.class) }
        ensures { result ≡ spot self.class self.cells self.index 3 }
    {
        near_word(self.cell(), HEAD)
    }

    /// The word of a place.
    #[inline(always)]
    pub fn word(self, place: u8) -> usize
        requires { AreAllowed self.cells × (self.index < amount self.cells self.class) × (place < width self.class) }
        ensures { result ≡ spot self.class self.cells self.index (slot_of place) }
    {
        let starts = Starts::in_row(self.cells);
        place_word(self.cells, starts, self.cell(), place)
    }
}
