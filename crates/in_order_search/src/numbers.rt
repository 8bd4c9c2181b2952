//! Lists of numbers. A place out of range has no number, and nothing is put there, so that no caller has to know its places.

use sqlite_items::Items;
use std::alloc::{AllocError, Global};

/// No number.
pub(crate) const NONE: u32 = u32::MAX;

/// How many there are, or `NONE` for more than a `u32` has.
pub(crate) fn short(count: usize) -> u32 {
    if count < NONE as usize {
        count as u32
    } else {
        NONE
    }
}

/// A list of numbers.
#[derive(Drop)]
pub(crate) struct Numbers {
    list: Vec<u32>,
}

impl Numbers {
    /// No number.
    pub(crate) fn new(alloc: Global) -> Numbers {
        Numbers {
            list: Vec::new(alloc),
        }
    }

    /// No number, and room for so many.
    pub(crate) fn with_room(alloc: Global, room: usize) -> Result<Numbers, AllocError> {
        Ok(Numbers {
            list: Vec::with_capacity(alloc, room)?,
        })
    }

    /// The same number `count` times.
    pub(crate) fn filled(alloc: Global, count: usize, number: u32) -> Result<Numbers, AllocError> {
        let mut list = Vec::with_capacity(alloc, count)?;
        list.resize(count, number)?;
        Ok(Numbers { list })
    }

    /// The numbers from 0 on.
    pub(crate) fn counted(alloc: Global, count: usize) -> Result<Numbers, AllocError> {
        let mut list = Vec::with_capacity(alloc, count)?;
        for number in 0..count {
            list.push(short(number))?;
        }
        Ok(Numbers { list })
    }

    /// How many numbers there are.
    pub(crate) fn len(&self) -> u32 {
        short(self.list.len())
    }

    /// The number at a place, or `NONE` out of range.
    #[inline(always)]
    pub(crate) fn at(&self, place: u32) -> u32 {
        match self.list.get(place as usize) {
            Some(number) => *number,
            None => NONE,
        }
    }

    /// Puts a number at a place.
    #[inline(always)]
    pub(crate) fn put(&mut self, place: u32, number: u32) {
        if let Some(old) = self.list.get_mut(place as usize) {
            *old = number;
        }
    }

    /// One more at a place.
    #[inline(always)]
    pub(crate) fn raise(&mut self, place: u32) {
        if let Some(old) = self.list.get_mut(place as usize) {
            *old = old.wrapping_add(1);
        }
    }

    /// One less at a place, and at least 0. Returns what is left, or `NONE` out of range.
    #[inline(always)]
    pub(crate) fn lower(&mut self, place: u32) -> u32 {
        match self.list.get_mut(place as usize) {
            Some(old) => {
                *old = old.saturating_sub(1);
                *old
            }
            None => NONE,
        }
    }

    /// One more number at the end.
    #[inline(always)]
    pub(crate) fn push(&mut self, number: u32) -> Result<(), AllocError> {
        self.list.push(number)?;
        Ok(())
    }

    /// Takes the last number.
    #[inline(always)]
    pub(crate) fn pop(&mut self) -> Option<u32> {
        self.list.pop()
    }

    /// The list of them.
    pub(crate) fn into_items(self) -> Items<u32> {
        let Numbers { list } = self;
        Items::from_vec(list)
    }

    /// No number any more.
    pub(crate) fn clear(&mut self) {
        self.list.clear();
    }
}
