// The head of a live cell in one word.
ghost use Rattle.std.specs.Prelude.{◌≡◌, ◌<◌};
ghost use Rattle.in_arena.specs.EndWords.{free_place, numbers};
ghost use Rattle.in_arena.specs.Words.{IsHead, head_in};
ghost use Rattle.in_arena.specs.declared.content.End.TheVariants.{Cell};

use crate::content::{CellClass, CellNo, SymbolWord};
use crate::word::EndWord;
use std::marker::Model;

/// The symbol word of a live cell, and how many places it has, in one word, which is written as it is. Contracts see both.
#[derive(Clone, Copy)]
pub struct HeadWord {
    word: EndWord,
}

impl Model for HeadWord {
    ghost use Rattle.in_arena.specs.declared.content.End.TheVariants.{Cell};
    ghost use Rattle.in_arena.specs.Words.{Head, IsHead, head_in};

    ghost Value = { Head };

    ghost view = { λ h. head_in h.word };

    ghost invariant = { λ h. IsHead h.word };

    ghost inverse = { λ h. record { word = Cell (record { 0 = h.word }) h.count } };
}

impl HeadWord {
    /// The head of a cell with this symbol word, below 33,554,432, and this many places, below 31, the principal port's among them.
    #[inline(always)]
    pub fn of(symbol: SymbolWord, places: u8) -> HeadWord
        requires symbol { symbol < numbers }
        requires places { places < free_place }
        ensures { (result.word ≡ symbol) × (result.count ≡ places) }
    {
        HeadWord {
            word: EndWord::port(CellNo(symbol), places),
        }
    }

    // The head that is this word.
    #[inline(always)]
    pub(crate) fn from(word: EndWord) -> HeadWord
        requires { IsHead word }
        ensures { result ≡ head_in word }
    {
        HeadWord { word }
    }

    // As an end names a cell and a place.
    #[inline(always)]
    pub(crate) fn word(self) -> EndWord
        ensures { result ≡ Cell (record { 0 = self.word }) self.count }
    {
        self.word
    }

    /// The symbol word.
    pub fn symbol(self) -> SymbolWord
        ensures { result ≡ self.word }
    {
        self.word.number()
    }

    /// How many places there are, the principal port's among them.
    pub fn places(self) -> u8
        ensures { result ≡ self.count }
    {
        self.word.place()
    }
}

/// A cell to be begun: its head, the class of cells for as many places, and a number of the caller's, which no arena reads.
#[derive(Clone, Copy)]
pub struct NewCell {
    pub head: HeadWord,
    pub mark: u32,
    pub class: CellClass,
}
