// The owner of several cells.
ghost use Rattle.std.specs.Prelude.{◌≡◌, ◌<◌, Some, length};
ghost use Rattle.in_arena.specs.States.{State, Live, Leased, IsBegun, places, with_end};
ghost use Rattle.in_arena.specs.Arenas.{state_at, changed};
ghost use Rattle.in_arena.specs.Bags.{IsInBag, AreOfOne, IsFor};
ghost use Rattle.in_arena.specs.EndWords.{HaveWords, numbers};

use crate::content::{CellCounts, CellNo, End, SymbolWord};
use crate::head::HeadWord;
use crate::row::{begin_cell, set_end, write_cell};
use crate::spot::spot_of;
use crate::word::EndWord;
use in_memory::{Base, Cells};
use std::marker::Model;

/// Owns some cells of an arena, by their numbers: no other part of the program reads or writes them meanwhile. It takes no bytes for a cell, and may
/// be moved to another thread. Contracts see it as an arena: one of its cells is vacant if nothing is written in it, otherwise live; any other
/// cell is leased. Spend its cells by `Arena::settle_from` or `Arena::give_back_from`: an arena with a cell in a bag can't be dropped.
#[derive(Drop)]
pub struct Bag {
    pub(crate) base: Base<EndWord>,
    pub(crate) words: Cells<EndWord>,
    pub(crate) cells: CellCounts,
}

impl Model for Bag {
    ghost use Rattle.in_arena.specs.Arenas.{ArenaView};

    ghost Value = { ArenaView };

    ghost use Rattle.in_arena.specs.BagInside.{bag_view, IsBag};

    ghost view = { bag_view };

    ghost invariant = { IsBag };
}

impl Bag {
    /// Writes the symbol word and the ends at the places of a cell, the principal port first: as many as its class is for. Each number is below
    /// 33,554,432.
    #[inline(always)]
    pub fn write(&mut self, cell: CellNo, symbol: SymbolWord, ends: &[End])
        requires is_in { IsInBag self.old cell.0 }
        requires many { IsFor self.old.cells cell.0 (length ends.now) }
        requires symbol { symbol < numbers }
        requires ends { HaveWords ends.now }
        ensures { self.new ≡ changed self.old cell.0 (Live symbol ends.now) }
    {
        let spot = spot_of(self.cells, cell);
        write_cell(&mut self.words, self.base, spot, symbol, ends);
    }

    /// Writes the head of a cell, which has as many places as its class is for. Their ends are open until they are set one by one, so they needn't be
    /// gathered before.
    pub fn begin(&mut self, cell: CellNo, head: HeadWord)
        requires is_in { IsInBag self.old cell.0 }
        requires many { IsFor self.old.cells cell.0 head.count }
        ensures { (x : State) × IsBegun head.word head.count x × (self.new ≡ changed self.old cell.0 x) }
    {
        let spot = spot_of(self.cells, cell);
        begin_cell(&mut self.words, self.base, spot, head);
    }

    /// Writes the end at a place of a cell that is written.
    #[inline(always)]
    pub fn set(&mut self, cell: CellNo, place: u8, end: EndWord)
        requires { place < places (state_at self.old cell.0) }
        ensures { self.new ≡ changed self.old cell.0 (with_end (state_at self.old cell.0) place end) }
    {
        let spot = spot_of(self.cells, cell);
        set_end(&mut self.words, self.base, spot, place, end);
    }

    /// Moves a cell, with its content, to another bag of the same arena.
    #[inline(always)]
    pub fn move_to(&mut self, cell: CellNo, other: &mut Bag)
        requires is_in { IsInBag self.old cell.0 }
        requires of_one { AreOfOne self.old other.old }
        requires apart { state_at other.old cell.0 ≡ Leased }
        ensures { (other.new ≡ changed other.old cell.0 (state_at self.old cell.0)) × (self.new ≡ changed self.old cell.0 Leased) }
    {
        let spot = spot_of(self.cells, cell);
        other.words.join(self.words.part_by(&spot));
    }
}
