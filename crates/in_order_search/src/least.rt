//! Sets of numbers whose least one is taken.

use crate::numbers::Numbers;
use std::alloc::{AllocError, Global};

/// A set of numbers below a bound. A word has a bit for each of 64 numbers; a word of the level above has a bit for each of 64 words, which
/// says that the word has a member; and so on up to a level of one word.
#[derive(Drop)]
pub(crate) struct Least {
    words: Vec<u64>,
    levels: Numbers,
}

impl Least {
    /// The empty set, for numbers below `bound`.
    pub(crate) fn new(alloc: Global, bound: u32) -> Result<Least, AllocError> {
        let mut levels = Numbers::new(alloc);
        let mut total = 0u32;
        let mut size = bound;
        for level in 0..6 {
            levels.push(total)?;
            size = size / 64 + (if size % 64 > 0 { 1 } else { 0 });
            total = total.saturating_add(size);
            if size <= 1 {
                break;
            }
        }
        let mut words = Vec::with_capacity(alloc, total as usize)?;
        words.resize(total as usize, 0)?;
        Ok(Least { words, levels })
    }

    /// The word at a place of a level.
    #[inline(always)]
    fn word(&self, level: u32, place: u32) -> u64 {
        match self
            .words
            .get(self.levels.at(level).wrapping_add(place) as usize)
        {
            Some(word) => *word,
            None => 0,
        }
    }

    /// Puts a word at a place of a level.
    #[inline(always)]
    fn set(&mut self, level: u32, place: u32, word: u64) {
        if let Some(old) = self
            .words
            .get_mut(self.levels.at(level).wrapping_add(place) as usize)
        {
            *old = word;
        }
    }

    /// The number is a member.
    pub(crate) fn put(&mut self, number: u32) {
        let mut place = number;
        for level in 0..self.levels.len() {
            let old = self.word(level, place / 64);
            self.set(level, place / 64, old | 1 << place % 64);
            if old != 0 {
                break;
            }
            place /= 64;
        }
    }

    /// The least member.
    fn first(&self) -> Option<u32> {
        let mut place = 0u32;
        for level in (0..self.levels.len()).rev() {
            let word = self.word(level, place);
            if word == 0 {
                return None;
            }
            place = place.wrapping_mul(64).wrapping_add(word.trailing_zeros());
        }
        Some(place)
    }

    /// Takes the least member out.
    pub(crate) fn take(&mut self) -> Option<u32> {
        let number = self.first()?;
        let mut place = number;
        for level in 0..self.levels.len() {
            let left = self.word(level, place / 64) & !(1 << place % 64);
            self.set(level, place / 64, left);
            if left != 0 {
                break;
            }
            place /= 64;
        }
        Some(number)
    }
}
