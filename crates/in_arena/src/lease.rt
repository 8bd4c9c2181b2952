// The owner of one cell.
ghost use Rattle.std.specs.Prelude.{◌≡◌, ◌<◌, length};
ghost use Rattle.in_arena.specs.States.{State, Live, IsBegun, places, with_end};
ghost use Rattle.in_arena.specs.Arenas.{written};
ghost use Rattle.in_arena.specs.Classes.{Holds};
ghost use Rattle.in_arena.specs.EndWords.{HasWord, HaveWords, numbers};

use crate::content::{CellClass, CellNo, End, SymbolWord};
use crate::head::HeadWord;
use crate::row::{begin_cell, set_end, write_cell};
use crate::spot::Spot;
use crate::word::EndWord;
use in_memory::{Base, Cells};
use std::marker::Model;

/// Owns one cell of an arena: no other part of the program reads or writes it meanwhile. It may be moved to another thread. Spend it by
/// `Arena::settle` or `Arena::give_back`: an arena with a cell on lease can't be dropped. Contracts see its class and number, its memory, and its
/// content.
#[derive(Drop)]
pub struct Lease {
    pub(crate) spot: Spot,
    pub(crate) base: Base<EndWord>,
    pub(crate) words: Cells<EndWord>,
}

impl Model for Lease {
    ghost use Rattle.in_arena.specs.Arenas.{LeaseView};

    ghost Value = { LeaseView };

    ghost use Rattle.in_arena.specs.Leases.{lease_view, IsLease};

    ghost view = { lease_view };

    ghost invariant = { IsLease };
}

impl Lease {
    /// The number of its cell.
    pub fn cell(&self) -> CellNo
        ensures { result.0 ≡ self.now.number }
    {
        self.spot.cell()
    }

    /// The class of its cell.
    pub fn class(&self) -> CellClass
        ensures { result ≡ self.now.class }
    {
        self.spot.class
    }

    /// Writes the symbol word and the ends at its places, the principal port first: as many as its class is for. Each number is below 33,554,432.
    pub fn write(&mut self, symbol: SymbolWord, ends: &[End])
        requires many { Holds self.old.class (length ends.now) }
        requires symbol { symbol < numbers }
        requires ends { HaveWords ends.now }
        ensures { self.new ≡ written self.old (Live symbol ends.now) }
    {
        write_cell(&mut self.words, self.base, self.spot, symbol, ends);
    }

    /// Writes the head, which has as many places as its class is for. Their ends are open until they are written.
    pub fn begin(&mut self, head: HeadWord)
        requires { Holds self.old.class head.count }
        ensures { (x : State) × IsBegun head.word head.count x × (self.new ≡ written self.old x) }
    {
        begin_cell(&mut self.words, self.base, self.spot, head);
    }

    /// Writes the end at a place of a cell that is written. The end's number is below 33,554,432.
    pub fn set(&mut self, place: u8, end: End)
        requires place { place < places self.old.state }
        requires end { HasWord end }
        ensures { self.new ≡ written self.old (with_end self.old.state place end) }
    {
        set_end(
            &mut self.words,
            self.base,
            self.spot,
            place,
            EndWord::of(end),
        );
    }
}
