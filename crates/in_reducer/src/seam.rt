// Room for a part that comes back.
ghost use Rattle.std.specs.Prelude.{◌≡◌, ◌≤◌, ◌*◌, ◌+◌, IfOk, length};
ghost use Rattle.in_arena.specs.Classes.{classes};
ghost use Rattle.in_reducer.specs.Inside.{most_ends, most_free_ends};
ghost use Rattle.in_reducer.specs.Limiting.{most_cells};
ghost use Rattle.in_reducer.specs.Reserved.{IsReserved};

use crate::body::OwnEnd;
use crate::limits::MOST_ENDS;
use in_arena::{CellClass, CellNo, EndWord};
use std::alloc::{AllocError, Global};

/// All memory for gluing a part on, except the list of new numbers that is lent to it, so gluing can't be refused: for a net of at most `most` free
/// ends afterwards, and a part with at most `cells` cells of each class.
#[derive(Drop)]
pub struct Seam {
    pub(crate) most: u32,
    pub(crate) cells: u32,
    pub(crate) free: Vec<OwnEnd>,
    pub(crate) ends: Vec<EndWord>,
    pub(crate) agents: Vec<CellNo>,
    pub(crate) rest: Vec<u16>,
    pub(crate) part: Vec<u16>,
    ghost few_free: { most ≤ most_free_ends },
    ghost few_cells: { cells ≤ most_cells },
    ghost free_room: { IsReserved most free },
    ghost ends_room: { IsReserved (most + most_ends + most_ends) ends },
    ghost agents_room: { IsReserved (length classes * cells) agents },
    ghost rest_room: { IsReserved most rest },
    ghost part_room: { IsReserved most part },
}

impl Seam {
    /// Room for `most` free ends, at most 65,536, and a part with `cells` cells of each class. Refused only when out of memory.
    pub fn new(alloc: Global, most: u32, cells: u32) -> Result<Seam, AllocError>
        requires few { most ≤ most_free_ends }
        requires cells { cells ≤ most_cells }
        ensures { IfOk result (λ s. (s.most ≡ most) × (s.cells ≡ cells)) }
    {
        let all = CellClass::ALL.len() * cells as usize;
        Ok(Seam {
            most,
            cells,
            free: Vec::with_capacity(alloc, most as usize)?,
            ends: Vec::with_capacity(alloc, most as usize + 2 * MOST_ENDS)?,
            agents: Vec::with_capacity(alloc, all)?,
            rest: Vec::with_capacity(alloc, most as usize)?,
            part: Vec::with_capacity(alloc, most as usize)?,
        })
    }
}
