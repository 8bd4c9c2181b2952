// The numbers of cells, in a list for each class.
ghost use Rattle.std.specs.Prelude.{◌≡◌, ◌<◌, [], length, IfOk};
ghost use Rattle.in_compile.specs.Cells.{count_of};
ghost use Rattle.in_compile.specs.Listing.{listed, room_of, HasOneMore};

use crate::cells::Need;
use in_arena::{CellClass, CellIndex};
use std::alloc::{AllocError, Global};

/// Numbers of cells, in a list for each class, with room for a given number of them. Only this file depends on there being a list for each
/// class.
#[derive(Drop)]
pub(crate) struct Lists {
    small: Vec<CellIndex>,
    large: Vec<CellIndex>,
    wide: Vec<CellIndex>,
}

impl Lists {
    ghost use Rattle.in_arena.specs.declared.content.CellClass.{CellClass};

    /// Empty lists, each with room for the number that `room` has for its class.
    pub(crate) fn with_room(alloc: Global, room: Need) -> Result<Lists, AllocError>
        ensures { IfOk result (λ l. ((c : CellClass) → listed l c ≡ []) × (room_of l ≡ room)) }
    {
        Ok(Lists {
            small: Vec::with_capacity(alloc, room.small as usize)?,
            large: Vec::with_capacity(alloc, room.large as usize)?,
            wide: Vec::with_capacity(alloc, room.wide as usize)?,
        })
    }

    /// The count of numbers of this class.
    pub(crate) fn len(&self, class: CellClass) -> usize
        ensures { result ≡ length (listed self.now class) }
    {
        match class {
            CellClass::Small => self.small.len(),
            CellClass::Large => self.large.len(),
            CellClass::Wide => self.wide.len(),
        }
    }

    /// Adds a number of this class.
    #[inline(always)]
    pub(crate) fn push(&mut self, class: CellClass, cell: CellIndex)
        requires { length (listed self.old class) < count_of (room_of self.old) class }
        ensures { HasOneMore self.old self.new class cell }
    {
        match class {
            CellClass::Small => self.small.push_reserved(cell),
            CellClass::Large => self.large.push_reserved(cell),
            CellClass::Wide => self.wide.push_reserved(cell),
        }
    }

    /// Takes out the last number of this class.
    #[inline(always)]
    pub(crate) fn take(&mut self, class: CellClass) -> CellIndex
        requires { 0 < length (listed self.old class) }
        ensures { HasOneMore self.new self.old class result }
    {
        match class {
            CellClass::Small => self.small.take_last(),
            CellClass::Large => self.large.take_last(),
            CellClass::Wide => self.wide.take_last(),
        }
    }
}
