// An end in one word.
ghost use Rattle.std.specs.Prelude.{◌≡◌, ◌≢◌, ◌⊎◌, ◌↔◌, ◌*◌, ◌+◌, ◌<◌, ℕ, IsTrue, MatchOption};
ghost use Rattle.in_arena.specs.declared.content.CellNo.{CellNo as Number};
ghost use Rattle.in_arena.specs.EndWords.{HasWord, IsNear, free_place};
ghost use Rattle.in_arena.specs.declared.content.End.TheVariants.{Cell, Free};

use crate::content::{CellIndex, CellNo, End};
use std::marker::Model;

// The place begins at this bit.
const ABOVE: u32 = 134217728;

// The number that a free end has for a place.
const FREE_PLACE: u32 = 31;

// The lowest bits of an end that is at no near place.
const NOT_NEAR: u32 = 3;

/// An end in one word, so that it is read, tested and written as a whole. Contracts see the end. The word of one of the first three places of a cell
/// is the place's own number in the row of an arena, four times the number of the cell and the place; the word of any other end is a number that no
/// word of a row has. That form is this project's own choice.
#[derive(Clone, Copy)]
pub struct EndWord {
    bits: u32,
}

impl Model for EndWord {
    ghost use Rattle.in_arena.specs.declared.content.End.{End};
    ghost use Rattle.in_arena.specs.EndWords.{end_in, bits_of, FitsEnd};

    ghost Value = { End };

    ghost view = { λ w. end_in w.bits };

    ghost invariant = { λ w. FitsEnd w.bits };

    ghost inverse = { λ e. record { bits = bits_of e } };
}

impl EndWord {
    /// The word of this end. The number of a cell or of a free end is below 33,554,432, and a place is below 31.
    #[inline(always)]
    pub fn of(end: End) -> EndWord
        requires { HasWord end }
        ensures { result ≡ end }
    {
        match end {
            End::Cell(cell, place) => EndWord::port(cell, place),
            End::Free(number) => EndWord::free(number),
        }
    }

    /// The word of this place of that cell, the principal port being place 0. The number of the cell is below 33,554,432, and the place below 31.
    #[inline(always)]
    pub fn port(cell: CellNo, place: u8) -> EndWord
        requires { HasWord (Cell cell place) }
        ensures { result ≡ Cell cell place }
    {
        let number = cell.0 * 4;
        let place = u32::from(place);
        if place < 3 {
            EndWord {
                bits: number + place,
            }
        } else {
            EndWord {
                bits: place * ABOVE + (number + NOT_NEAR),
            }
        }
    }

    /// The word of this place of that cell, the principal port being place 0. The place is below 31.
    #[inline(always)]
    pub fn place_of(cell: CellIndex, place: u8) -> EndWord
        requires { place < free_place }
        ensures { result ≡ Cell cell place }
    {
        EndWord::port(cell.no(), place)
    }

    /// The word of the free end of this number, which is below 33,554,432.
    #[inline(always)]
    pub fn free(number: u32) -> EndWord
        requires { HasWord (Free number) }
        ensures { result ≡ Free number }
    {
        EndWord {
            bits: FREE_PLACE * ABOVE + (number * 4 + NOT_NEAR),
        }
    }

    /// The word of the same place of another cell. The end is at a place of a cell.
    #[inline(always)]
    pub fn moved_to(self, cell: CellIndex) -> EndWord
        requires { (c : Number) × (p : ℕ) × (self ≡ Cell c p) }
        ensures { (c : Number) (p : ℕ) → self ≡ Cell c p → result ≡ Cell cell p }
    {
        EndWord::port(cell.no(), self.place())
    }

    // The number of the cell of which it is a place, or of the free end.
    #[inline(always)]
    pub(crate) fn number(self) -> u32
        ensures cell { (c : Number) (p : ℕ) → self ≡ Cell c p → result ≡ c.0 }
        ensures free { (k : ℕ) → self ≡ Free k → result ≡ k }
    {
        self.bits % ABOVE / 4
    }

    // The place, if the end is at a place of a cell.
    #[inline(always)]
    pub(crate) fn place(self) -> u8
        ensures { (c : Number) (p : ℕ) → self ≡ Cell c p → result ≡ p }
    {
        let far = self.bits / ABOVE;
        if far == 0 {
            (self.bits % 4) as u8
        } else {
            far as u8
        }
    }

    /// The end of this word.
    #[inline(always)]
    pub fn end(self) -> End
        ensures { result ≡ self }
    {
        let far = self.bits / ABOVE;
        let number = self.bits % ABOVE / 4;
        if far == 0 {
            End::Cell(CellNo(number), (self.bits % 4) as u8)
        } else if far == FREE_PLACE {
            End::Free(number)
        } else {
            End::Cell(CellNo(number), far as u8)
        }
    }

    /// The cell whose principal port the end leads to, if it leads to one.
    #[inline(always)]
    pub fn principal(self) -> Option<CellNo>
        ensures { MatchOption result ((c : Number) → self ≢ Cell c 0) (λ c. self ≡ Cell c 0) }
    {
        if self.bits % 4 == 0 {
            Some(CellNo(self.bits / 4))
        } else {
            None
        }
    }

    /// The word of the place to which this step leads from the principal port that it leads to. The step to place 0 leads from any end to itself.
    #[inline(always)]
    pub fn at(self, step: PlaceStep) -> EndWord
        requires { (step ≡ 0) ⊎ ((c : Number) × (self ≡ Cell c 0)) }
        ensures same { step ≡ 0 → result ≡ self }
        ensures moved { (c : Number) → self ≡ Cell c 0 → result ≡ Cell c step }
    {
        EndWord {
            bits: self.bits + step.bits,
        }
    }

    /// Whether the end is one of the first three places of a cell.
    #[inline(always)]
    pub fn is_near(self) -> bool
        ensures { IsTrue result ↔ IsNear self }
    {
        match self.near() {
            Some(_) => true,
            None => false,
        }
    }

    // The place's own number in the row, where the end is one of the first three places of a cell.
    #[inline(always)]
    pub(crate) fn near_word(self) -> usize
        requires { IsNear self }
        ensures { (c : Number) (p : ℕ) → self ≡ Cell c p → result ≡ 4 * c.0 + p }
    {
        self.bits as usize
    }

    // The place's own number in the row, if the end is one of the first three places of a cell.
    #[inline(always)]
    pub(crate) fn near(self) -> Option<usize>
        ensures { MatchOption result ((c : Number) (p : ℕ) → self ≡ Cell c p → p < 3 → ⊥) (λ x. (c : Number) × (p : ℕ) × (self ≡ Cell c p) × (p < 3) × (x ≡ 4 * c.0 + p)) }
    {
        if self.bits < ABOVE {
            Some(self.bits as usize)
        } else {
            None
        }
    }
}

/// The step from the principal port of a cell to a place of it, in one word, so that a wire's end is found by one addition. Contracts see the place.
#[derive(Clone, Copy)]
pub struct PlaceStep {
    bits: u32,
}

impl Model for PlaceStep {
    ghost use Rattle.std.specs.Prelude.{ℕ};
    ghost use Rattle.in_arena.specs.EndWords.{FitsStep, place_of_step, step_to};

    ghost Value = { ℕ };

    ghost view = { λ s. place_of_step s.bits };

    ghost invariant = { λ s. FitsStep s.bits };

    ghost inverse = { λ p. record { bits = step_to p } };
}

impl PlaceStep {
    /// The step to this place, which is below 31.
    #[inline(always)]
    pub fn to(place: u8) -> PlaceStep
        requires { place < free_place }
        ensures { result ≡ place }
    {
        let place = u32::from(place);
        if place < 3 {
            PlaceStep { bits: place }
        } else {
            PlaceStep {
                bits: place * ABOVE + NOT_NEAR,
            }
        }
    }
}
