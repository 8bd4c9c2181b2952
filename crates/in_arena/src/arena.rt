// An arena: cells in a row of words, each with a number.
ghost use Rattle.std.specs.Prelude.{ℕ, ◌≡◌, ◌*◌, ◌+◌, ◌^◌, ◌<◌, ◌≤◌, ◌↔◌, IsTrue, true, false, MatchOption, Some, IfOk, length, replicate, slice_get};
ghost use Rattle.in_arena.specs.States.{State, Vacant, Leased, IsLive, IsLeased, IsBegun, HasEnds, word_of, end_at, places, with_end};
ghost use Rattle.in_arena.specs.Arenas.{Leases, BeginsCell, IsOf, IsUsedOf, NoneLeased, state_at, changed, free_of};
ghost use Rattle.in_arena.specs.Beginning.{AreSmall, BeginsFrom, BeginsSmall};
ghost use Rattle.in_arena.specs.Bags.{IsBagOf, IsFor, IsInBag, LeasesTo, empty_bag};
ghost use Rattle.in_arena.specs.Classes.{Holds, IsNumberOf, all_of, each};
ghost use Rattle.in_arena.specs.EndWords.{HasWord, IsNear};
ghost use Rattle.in_arena.specs.declared.content.CellClass.{CellClass as Class};
ghost use Rattle.in_arena.specs.declared.content.CellNo.{CellNo as Number};
ghost use Rattle.in_arena.specs.declared.content.End.TheVariants.{Cell};
ghost use Rattle.in_arena.specs.declared.head.NewCell.{NewCell as New};
ghost use Rattle.in_arena.specs.Changes.{HasAllCells};
ghost use Rattle.in_arena.specs.RowStarts.{IsRowStart};
ghost use Rattle.in_arena.specs.Limiting.{AreAllowed, most_cells};

use crate::bag::Bag;
use crate::content::{CellClass, CellCounts, CellIndex, CellNo, End, SymbolWord};
use crate::free_list::FreeLists;
use crate::head::{HeadWord, NewCell};
use crate::lease::Lease;
use crate::row::{begin_new, head_of, is_ready, take_back};
use crate::spot::{HEAD, Spot, Starts, far_word, near_word, place_word, spot_of, words_of};
use crate::word::EndWord;
use in_memory::{Base, Cells, Deed, allocate, deallocate};
use std::alloc::{AllocError, Global};
use std::marker::Model;
use std_alloc::room::may_hold;

/// Cells in raw memory, numbered class by class from 0. Contracts see the state of each cell, by its number: free,
/// leased, or live with a symbol word and its ends. It is dropped only while no cell is on lease.
pub struct Arena {
    base: Base<EndWord>,
    words: Cells<EndWord>,
    deed: Deed<EndWord, Global>,
    alloc: Global,
    cells: CellCounts,
    starts: Starts,
    lists: FreeLists,
}

impl Model for Arena {
    ghost use Rattle.in_arena.specs.Arenas.{ArenaView};

    ghost Value = { ArenaView };

    ghost use Rattle.in_arena.specs.Inside.{arena_view, IsArena};

    ghost view = { arena_view };

    ghost invariant = { IsArena };
}

/// Where the row of an arena begins. It owns nothing. Who writes many words takes it once: the compiler would load it from the arena again after each
/// of them.
#[derive(Clone, Copy)]
pub struct RowStart {
    base: Base<EndWord>,
}

// By hand, since an arena may be dropped only while none of its cells is on lease.
impl Drop for Arena {
    fn drop(self)
        requires { NoneLeased self }
    {
        let Arena {
            base,
            words,
            deed,
            alloc,
            cells,
            starts: _,
            lists: _,
        } = self;
        deallocate(&alloc, base, words_of(cells), words, deed);
    }
}

impl Arena {
    /// An arena with `cells` cells of each class, all free. It is refused only when out of memory; no other call but `with_counts` takes memory.
    pub fn new(alloc: Global, cells: u32) -> Result<Arena, AllocError>
        requires { cells ≤ most_cells }
        ensures { IfOk result (λ a. (a.cells ≡ each cells) × (a.states ≡ replicate (all_of (each cells)) Vacant)) }
    {
        Arena::with_counts(alloc, CellCounts::each(cells))
    }

    /// An arena with this number of cells of each class, all free. It is refused only when out of memory. A page of memory is used once a cell in it
    /// is.
    pub fn with_counts(alloc: Global, cells: CellCounts) -> Result<Arena, AllocError>
        requires { AreAllowed cells }
        ensures { IfOk result (λ a. (a.cells ≡ cells) × (a.states ≡ replicate (all_of cells) Vacant)) }
    {
        let len = words_of(cells);
        if !may_hold::<EndWord>(len) {
            return Err(AllocError);
        }
        let (base, words, deed) = allocate(&alloc, len)?;
        Ok(Arena {
            base,
            words,
            deed,
            alloc,
            cells,
            starts: Starts::in_row(cells),
            lists: FreeLists::unused(cells),
        })
    }

    /// The number of cells of each class.
    pub fn cells(&self) -> CellCounts
        ensures { (result ≡ self.now.cells) × HasAllCells self.now × AreAllowed result }
    {
        self.cells
    }

    /// The number of cells of all classes. Each number below it is that of a cell.
    pub fn all_cells(&self) -> u32
        ensures { result ≡ length self.now.states }
    {
        self.cells.all()
    }

    /// The number of free cells of a class.
    pub fn free_count(&self, class: CellClass) -> u32
        ensures { result ≡ free_of self.now class }
    {
        self.lists.of(class).free
    }

    /// A number from which on all cells of a class are free. It isn't below the class's first cell, and at most one past its last.
    pub fn used(&self, class: CellClass) -> u32
        ensures { IsUsedOf self.now class result }
    {
        self.cells.first(class) + self.lists.of(class).fresh
    }

    /// A number from which on all cells of all classes are free.
    pub fn bound(&self) -> u32
        ensures few { result ≤ length self.now.states }
        ensures rest { (n : ℕ) → result ≤ n → n < length self.now.states → state_at self.now n ≡ Vacant }
    {
        let mut bound = 0;
        for class in CellClass::ALL {
            let end = self.used(class);
            if self.cells.first(class) < end {
                bound = end;
            }
        }
        bound
    }

    /// Leases a free cell of this class, any one. Returns none if none is free.
    #[inline(always)]
    pub fn lease(&mut self, class: CellClass) -> Option<Lease>
        ensures { Leases self.old class result self.new }
    {
        if !is_ready(
            &mut self.words,
            self.base,
            self.cells,
            &self.starts,
            class,
            &mut self.lists,
        ) {
            return None;
        }
        let list = self.lists.of(class);
        let spot = Spot {
            class,
            index: list.next,
            cells: self.cells,
        };
        let next = self.words.get(self.base, spot.head()).number();
        self.lists.pop(class, next);
        Some(Lease {
            spot,
            base: self.base,
            words: self.words.part_by(&spot),
        })
    }

    /// Makes the cell of the lease live with its content.
    #[inline(always)]
    pub fn settle(&mut self, lease: Lease)
        requires of_this_arena { IsOf lease self.old }
        requires written { IsLive lease.state }
        ensures { self.new ≡ changed self.old lease.number lease.state }
    {
        let Lease {
            spot: _,
            base: _,
            words,
        } = lease;
        self.words.join(words);
    }

    /// Frees the cell of the lease.
    #[inline(always)]
    pub fn give_back(&mut self, lease: Lease)
        requires { IsOf lease self.old }
        ensures { self.new ≡ changed self.old lease.number Vacant }
    {
        let Lease { spot, base, words } = lease;
        take_back(&mut self.words, base, spot, words, &mut self.lists);
    }

    /// Whether a cell is live. It isn't on lease.
    pub fn is_live(&self, cell: CellNo) -> bool
        requires there { cell.0 < length self.now.states }
        requires not_leased { IsLeased (state_at self.now cell.0) → ⊥ }
        ensures { IsTrue result ↔ IsLive (state_at self.now cell.0) }
    {
        let spot = spot_of(self.cells, cell);
        if self.lists.of(spot.class).fresh <= spot.index {
            return false;
        }
        head_of(&self.words, self.base, cell).place() != 0
    }

    /// The number of places of a live cell, with the principal one. Some class of cells is for that many.
    pub fn places(&self, cell: CellNo) -> u8
        requires { IsLive (state_at self.now cell.0) }
        ensures places { result ≡ places (state_at self.now cell.0) }
        ensures held { (c : Class) × Holds c result }
    {
        head_of(&self.words, self.base, cell).place()
    }

    /// The symbol word of a live cell.
    #[inline(always)]
    pub fn symbol(&self, cell: CellNo) -> SymbolWord
        requires { IsLive (state_at self.now cell.0) }
        ensures { word_of (state_at self.now cell.0) ≡ Some result }
    {
        head_of(&self.words, self.base, cell).number()
    }

    /// The head of a live cell: its symbol word, and how many places it has.
    #[inline(always)]
    pub fn head(&self, cell: CellNo) -> HeadWord
        requires { IsLive (state_at self.now cell.0) }
        ensures symbol { word_of (state_at self.now cell.0) ≡ Some result.word }
        ensures places { result.count ≡ places (state_at self.now cell.0) }
    {
        HeadWord::from(head_of(&self.words, self.base, cell))
    }

    /// The word of a place of a live cell.
    #[inline(always)]
    pub fn place(&self, cell: CellNo, place: u8) -> EndWord
        requires { place < places (state_at self.now cell.0) }
        ensures { result ≡ Cell cell place }
    {
        // That a live cell's number has a word is the arena's invariant, which is read with a field.
        let _cells = self.cells;
        EndWord::port(cell, place)
    }

    /// Where its row begins.
    #[inline(always)]
    pub fn row(&self) -> RowStart
        ensures { IsRowStart result self.now }
    {
        RowStart { base: self.base }
    }

    /// The other end of the wire at a place of a live cell. The principal port is place 0.
    #[inline(always)]
    pub fn port(&self, cell: CellNo, place: u8) -> End
        requires { place < places (state_at self.now cell.0) }
        ensures { end_at (state_at self.now cell.0) place ≡ Some result }
    {
        self.word(cell, place).end()
    }

    /// The same end in one word.
    #[inline(always)]
    pub fn word(&self, cell: CellNo, place: u8) -> EndWord
        requires { place < places (state_at self.now cell.0) }
        ensures { end_at (state_at self.now cell.0) place ≡ Some result }
    {
        self.word_in(self.row(), cell, place)
    }

    /// The same for a row that begins there.
    #[inline(always)]
    pub fn word_in(&self, row: RowStart, cell: CellNo, place: u8) -> EndWord
        requires row { IsRowStart row self.now }
        requires place { place < places (state_at self.now cell.0) }
        ensures { end_at (state_at self.now cell.0) place ≡ Some result }
    {
        let at = place_word(self.cells, self.starts, cell, place);
        *self.words.get(row.base, at)
    }

    /// The word of one of the first three places of a live cell in a row that begins there: of a place that the cell has, the other end of its wire,
    /// else any word. So these places are read without a test of how many there are.
    #[inline(always)]
    pub fn near_in(&self, row: RowStart, cell: CellNo, place: u8) -> EndWord
        requires row { IsRowStart row self.now }
        requires live { IsLive (state_at self.now cell.0) }
        requires near { place < 3 }
        ensures { place < places (state_at self.now cell.0) → end_at (state_at self.now cell.0) place ≡ Some result }
    {
        *self.words.get(row.base, near_word(cell, place))
    }

    /// The other end of the wire at a place behind the first three of a live cell in a row that begins there.
    #[inline(always)]
    pub fn far_in(&self, row: RowStart, cell: CellNo, place: u8) -> EndWord
        requires row { IsRowStart row self.now }
        requires place { place < places (state_at self.now cell.0) }
        requires far { 3 ≤ place }
        ensures { end_at (state_at self.now cell.0) place ≡ Some result }
    {
        let at = far_word(self.cells, self.starts, cell, place);
        *self.words.get(row.base, at)
    }

    /// Writes the other end of the wire at a place of a live cell. The end's number is below 33,554,432.
    #[inline(always)]
    pub fn set_port(&mut self, cell: CellNo, place: u8, end: End)
        requires place { place < places (state_at self.old cell.0) }
        requires end { HasWord end }
        ensures { self.new ≡ changed self.old cell.0 (with_end (state_at self.old cell.0) place end) }
    {
        self.set_word(cell, place, EndWord::of(end));
    }

    /// The same for an end in one word.
    #[inline(always)]
    pub fn set_word(&mut self, cell: CellNo, place: u8, end: EndWord)
        requires { place < places (state_at self.old cell.0) }
        ensures { self.new ≡ changed self.old cell.0 (with_end (state_at self.old cell.0) place end) }
    {
        let at = place_word(self.cells, self.starts, cell, place);
        self.words.write(self.base, at, end);
    }

    /// Writes the end at the place to which `at` leads, if that is one of a live cell, and returns true. If `at` is a free end, returns false.
    #[inline(always)]
    pub fn set_at(&mut self, at: EndWord, end: EndWord) -> bool
        requires { (c : Number) (p : ℕ) → at ≡ Cell c p → p < places (state_at self.old c.0) }
        ensures cell { result ≡ true → (c : Number) × (p : ℕ) × (at ≡ Cell c p) × (self.new ≡ changed self.old c.0 (with_end (state_at self.old c.0) p end)) }
        ensures free { result ≡ false → (self.new ≡ self.old) × ((c : Number) (p : ℕ) → at ≡ Cell c p → ⊥) }
    {
        self.set_at_in(self.row(), at, end)
    }

    /// The same for a row that begins there.
    #[inline(always)]
    pub fn set_at_in(&mut self, row: RowStart, at: EndWord, end: EndWord) -> bool
        requires row { IsRowStart row self.old }
        requires place { (c : Number) (p : ℕ) → at ≡ Cell c p → p < places (state_at self.old c.0) }
        ensures cell { result ≡ true → (c : Number) × (p : ℕ) × (at ≡ Cell c p) × (self.new ≡ changed self.old c.0 (with_end (state_at self.old c.0) p end)) }
        ensures free { result ≡ false → (self.new ≡ self.old) × ((c : Number) (p : ℕ) → at ≡ Cell c p → ⊥) }
    {
        if let Some(word) = at.near() {
            self.words.write(row.base, word, end);
            return true;
        }
        match at.end() {
            End::Cell(cell, place) => {
                let word = far_word(self.cells, self.starts, cell, place);
                self.words.write(row.base, word, end);
                true
            }
            End::Free(_) => false,
        }
    }

    /// Writes the end at the place to which `at` leads, which is one of the first three of a live cell, in a row that begins there.
    #[inline(always)]
    pub fn set_near_in(&mut self, row: RowStart, at: EndWord, end: EndWord)
        requires row { IsRowStart row self.old }
        requires near { IsNear at }
        requires place { (c : Number) (p : ℕ) → at ≡ Cell c p → p < places (state_at self.old c.0) }
        ensures { (c : Number) (p : ℕ) → at ≡ Cell c p → self.new ≡ changed self.old c.0 (with_end (state_at self.old c.0) p end) }
    {
        self.words.write(row.base, at.near_word(), end);
    }

    /// Makes a free cell of this class, any one, live with this head, which has as many places as the class is for. Their ends are open until they are
    /// written. Nothing changes if none of the class is free.
    #[inline(always)]
    pub fn begin(&mut self, class: CellClass, head: HeadWord) -> Option<CellIndex>
        requires { Holds class head.count }
        ensures { MatchOption result ((free_of self.old class ≡ 0) × (self.new ≡ self.old)) (λ c. BeginsCell class head.word head.count self.old c.0 self.new) }
    {
        let list = self.lists.of(class);
        if list.next == self.starts.amount(class) {
            let begun = begin_new(
                &mut self.words,
                self.base,
                self.cells,
                &self.starts,
                class,
                head.word(),
                &mut self.lists,
            );
            let Some(cell) = begun else {
                return None;
            };
            return Some(CellIndex::of(cell));
        }
        let cell = CellNo(self.starts.first(class) + list.next);
        let at = near_word(cell, HEAD);
        let next = self.words.get(self.base, at).number();
        self.words.write(self.base, at, head.word());
        self.lists.pop(class, next);
        Some(CellIndex::of(cell))
    }

    /// Makes free small cells live with the heads of these cells, from number `from` on, as long as the next one is small and one is free. The
    /// principal port of each is written at its number from `first` on. Returns the number of the first one that has no cell.
    #[inline(always)]
    pub fn begin_small(
        &mut self,
        cells: &[NewCell],
        from: u32,
        points: &mut [EndWord],
        first: usize,
    ) -> u32
        requires some { from ≤ length cells.now }
        requires few { length cells.now < 2 ^ 32 }
        requires room { first + length cells.now ≤ length points.old }
        requires fits { (k : ℕ) (x : New) → slice_get cells.now k ≡ Some x → Holds x.class x.head.count }
        ensures { BeginsSmall cells.now from first self.old points.old result self.new points.new }
    {
        let listed = self.begin_listed(cells, from, points, first);
        let many = cells.len() as u32;
        for number in listed..many {
            let cell = &cells[number as usize];
            if cell.class.number() != CellClass::Small.number() {
                return number;
            }
            let Some(place) = self.begin(CellClass::Small, cell.head) else {
                return number;
            };
            points[first + number as usize] = EndWord::place_of(place, 0);
        }
        many
    }

    /// The same, but only as long as the list has a small cell. The first one of the list is a local value meanwhile: so each cell waits for one load,
    /// and not for the list in memory.
    #[inline(always)]
    fn begin_listed(
        &mut self,
        cells: &[NewCell],
        from: u32,
        points: &mut [EndWord],
        first: usize,
    ) -> u32
        requires some { from ≤ length cells.now }
        requires few { length cells.now < 2 ^ 32 }
        requires room { first + length cells.now ≤ length points.old }
        requires fits { (k : ℕ) (x : New) → slice_get cells.now k ≡ Some x → Holds x.class x.head.count }
        ensures begun { BeginsFrom cells.now from first self.old points.old result self.new points.new }
        ensures small { AreSmall cells.now from result }
    {
        let end = near_word(CellNo(self.cells.small_cells), 0);
        let first_free = self.lists.of(CellClass::Small).next;
        let base = self.base;
        let mut next = EndWord::port(CellNo(first_free), 0);
        let mut begun = from;
        for number in from..cells.len() as u32 {
            let cell = &cells[number as usize];
            let at = next.near_word();
            if at == end || cell.class.number() != CellClass::Small.number() {
                break;
            }
            points[first + number as usize] = next;
            let head = at + HEAD as usize;
            next = *self.words.get(base, head);
            self.words.write(base, head, cell.head.word());
            begun = number + 1;
        }
        self.lists
            .pop_many(CellClass::Small, begun - from, next.number());
        begun
    }

    /// Gives a live cell this head, which has as many places as the cell's class is for, and returns it. Their ends are open until they are written.
    #[inline(always)]
    pub fn renew(&mut self, cell: CellNo, head: HeadWord) -> CellIndex
        requires live { IsLive (state_at self.old cell.0) }
        requires many { IsFor self.old.cells cell.0 head.count }
        ensures cell { result ≡ cell }
        ensures renewed { (x : State) × IsBegun head.word head.count x × (self.new ≡ changed self.old cell.0 x) }
    {
        self.renew_in(self.row(), cell, head)
    }

    /// The same for a row that begins there.
    #[inline(always)]
    pub fn renew_in(&mut self, row: RowStart, cell: CellNo, head: HeadWord) -> CellIndex
        requires row { IsRowStart row self.old }
        requires live { IsLive (state_at self.old cell.0) }
        requires many { IsFor self.old.cells cell.0 head.count }
        ensures cell { result ≡ cell }
        ensures renewed { (x : State) × IsBegun head.word head.count x × (self.new ≡ changed self.old cell.0 x) }
    {
        self.words
            .write(row.base, near_word(cell, HEAD), head.word());
        CellIndex::of(cell)
    }

    /// Frees a live cell.
    #[inline(always)]
    pub fn retire(&mut self, cell: CellNo)
        requires { IsLive (state_at self.old cell.0) }
        ensures { self.new ≡ changed self.old cell.0 Vacant }
    {
        let spot = spot_of(self.cells, cell);
        self.retire_as(cell, spot.class);
    }

    /// The same where the class of the cell is known, so that it isn't looked for.
    #[inline(always)]
    pub fn retire_as(&mut self, cell: CellNo, class: CellClass)
        requires live { IsLive (state_at self.old cell.0) }
        requires class { IsNumberOf self.old.cells class cell.0 }
        ensures { self.new ≡ changed self.old cell.0 Vacant }
    {
        let index = cell.0 - self.starts.first(class);
        let list = self.lists.of(class);
        self.words.write(
            self.base,
            near_word(cell, HEAD),
            EndWord::port(CellNo(list.next), 0),
        );
        self.lists.push(class, index);
    }

    /// A bag of this arena that has no cell.
    pub fn bag(&self) -> Bag
        ensures { result ≡ empty_bag self.now }
    {
        Bag {
            base: self.base,
            words: self.words.none(),
            cells: self.cells,
        }
    }

    /// Leases a free cell of this class, any one, into a bag of this arena. Returns none if none is free.
    #[inline(always)]
    pub fn lease_to(&mut self, class: CellClass, bag: &mut Bag) -> Option<CellIndex>
        requires { IsBagOf bag.old self.old }
        ensures { LeasesTo self.old class bag.old result self.new bag.new }
    {
        let Lease {
            spot,
            base: _,
            words,
        } = self.lease(class)?;
        bag.words.join(words);
        Some(CellIndex::of(spot.cell()))
    }

    /// Makes the cell of the bag live with its content.
    #[inline(always)]
    pub fn settle_from(&mut self, bag: &mut Bag, cell: CellNo)
        requires of_this_arena { IsBagOf bag.old self.old }
        requires written { IsLive (state_at bag.old cell.0) }
        ensures { (self.new ≡ changed self.old cell.0 (state_at bag.old cell.0)) × (bag.new ≡ changed bag.old cell.0 Leased) × IsBagOf bag.new self.new }
    {
        let spot = spot_of(bag.cells, cell);
        self.words.join(bag.words.part_by(&spot));
    }

    /// Frees the cell of the bag.
    #[inline(always)]
    pub fn give_back_from(&mut self, bag: &mut Bag, cell: CellNo)
        requires of_this_arena { IsBagOf bag.old self.old }
        requires is_in { IsInBag bag.old cell.0 }
        ensures { (self.new ≡ changed self.old cell.0 Vacant) × (bag.new ≡ changed bag.old cell.0 Leased) × IsBagOf bag.new self.new }
    {
        let spot = spot_of(bag.cells, cell);
        let base = bag.base;
        take_back(
            &mut self.words,
            base,
            spot,
            bag.words.part_by(&spot),
            &mut self.lists,
        );
    }
}
