// Which cells of each class are free.
ghost use Rattle.std.specs.Prelude.{◌≡◌, ◌≢◌, ◌≤◌, ◌<◌, ◌+◌, ◌-◌, ◌^◌};
ghost use Rattle.in_arena.specs.Classes.{amount};
ghost use Rattle.in_arena.specs.FreeLists.{list_in};
ghost use Rattle.in_arena.specs.declared.content.CellClass.{CellClass as Class};

use crate::content::{CellClass, CellCounts};

/// The free cells of a class: those of a list through the used ones, the last that was given back first, and all from `fresh` on. In the cells from
/// `fresh` on nothing was written yet. The cells are numbered within their class. The list ends at the number that no cell has.
#[derive(Clone, Copy)]
pub struct FreeList {
    pub next: u32,
    pub fresh: u32,
    pub free: u32,
}

impl FreeList {
    /// All cells of the class, in which nothing was written yet.
    fn unused(cells: u32) -> FreeList
        ensures { result ≡ record { next = cells; fresh = 0; free = cells } }
    {
        FreeList {
            next: cells,
            fresh: 0,
            free: cells,
        }
    }
}

/// The free cells of all classes, by the numbers of the classes.
#[derive(Clone, Copy)]
pub struct FreeLists {
    lists: [FreeList; 3],
}

impl FreeLists {
    /// The free cells where nothing was written yet: all cells of each class.
    pub fn unused(cells: CellCounts) -> FreeLists
        ensures { (c : Class) → list_in result c ≡ record { next = amount cells c; fresh = 0; free = amount cells c } }
    {
        FreeLists {
            lists: [
                FreeList::unused(cells.small_cells),
                FreeList::unused(cells.large_cells),
                FreeList::unused(cells.wide_cells),
            ],
        }
    }

    /// The free cells of a class.
    #[inline(always)]
    pub fn of(&self, class: CellClass) -> FreeList
        ensures { result ≡ list_in self.now class }
    {
        self.lists[class.number() as usize]
    }

    /// Makes these the free cells of a class.
    #[inline(always)]
    pub fn set(&mut self, class: CellClass, list: FreeList)
        ensures class { list_in self.new class ≡ list }
        ensures others { (c : Class) → c ≢ class → list_in self.new c ≡ list_in self.old c }
    {
        self.lists[class.number() as usize] = list;
    }

    /// Takes the first cell of a class that was never used out of the free ones.
    #[inline(always)]
    pub fn use_fresh(&mut self, class: CellClass)
        requires { ((list_in self.old class).fresh + 1 < 2 ^ 32) × (1 ≤ (list_in self.old class).free) }
        ensures class { list_in self.new class ≡ record { next = (list_in self.old class).next; fresh = (list_in self.old class).fresh + 1; free = (list_in self.old class).free - 1 } }
        ensures others { (c : Class) → c ≢ class → list_in self.new c ≡ list_in self.old c }
    {
        let list = &mut self.lists[class.number() as usize];
        list.fresh += 1;
        list.free -= 1;
    }

    /// Puts this cell of a class first on its list.
    #[inline(always)]
    pub fn push(&mut self, class: CellClass, index: u32)
        requires { (list_in self.old class).free + 1 < 2 ^ 32 }
        ensures class { list_in self.new class ≡ record { next = index; fresh = (list_in self.old class).fresh; free = (list_in self.old class).free + 1 } }
        ensures others { (c : Class) → c ≢ class → list_in self.new c ≡ list_in self.old c }
    {
        let list = &mut self.lists[class.number() as usize];
        list.next = index;
        list.free += 1;
    }

    /// Takes the first cell of a class off its list: this one is the next.
    #[inline(always)]
    pub fn pop(&mut self, class: CellClass, next: u32)
        requires { 1 ≤ (list_in self.old class).free }
        ensures class { list_in self.new class ≡ record { next = next; fresh = (list_in self.old class).fresh; free = (list_in self.old class).free - 1 } }
        ensures others { (c : Class) → c ≢ class → list_in self.new c ≡ list_in self.old c }
    {
        self.pop_many(class, 1, next);
    }

    /// Takes that many first cells of a class off its list: this one is the next.
    #[inline(always)]
    pub fn pop_many(&mut self, class: CellClass, many: u32, next: u32)
        requires { many ≤ (list_in self.old class).free }
        ensures class { list_in self.new class ≡ record { next = next; fresh = (list_in self.old class).fresh; free = (list_in self.old class).free - many } }
        ensures others { (c : Class) → c ≢ class → list_in self.new c ≡ list_in self.old c }
    {
        let list = &mut self.lists[class.number() as usize];
        list.next = next;
        list.free -= many;
    }
}
