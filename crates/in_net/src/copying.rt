ghost use Rattle.std.specs.Prelude.{◌≡◌, IfOk};

use crate::nets::{Cell, FreeEnd, Net};
use in_syntax::Text;
use sqlite_items::Items;
use std::alloc::{AllocError, Global};

/// The same agent, if there is one.
fn same(alloc: Global, cell: &Option<Cell>) -> Result<Option<Cell>, AllocError>
    ensures { IfOk result (λ copy. copy ≡ cell.now) }
{
    match cell {
        Some(cell) => Ok(Some(Cell {
            symbol: cell.symbol,
            ends: Items::from_slice(alloc, cell.ends.as_slice())?,
        })),
        None => Ok(None),
    }
}

/// The same agents.
fn cells(alloc: Global, cells: &[Option<Cell>]) -> Result<Items<Option<Cell>>, AllocError>
    ensures { IfOk result (λ copy. copy ≡ cells.now) }
{
    let mut copy = Items::new(alloc);
    for cell in cells {
        copy.push(same(alloc, cell)?)?;
    }
    Ok(copy)
}

/// The same free ends.
fn free_ends(alloc: Global, free: &[FreeEnd]) -> Result<Vec<FreeEnd>, AllocError>
    ensures { IfOk result (λ copy. copy.items ≡ free.now) }
{
    let mut copy = Vec::new(alloc);
    for end in free {
        copy.push(FreeEnd {
            name: Text::from_str(alloc, end.name.as_str())?,
            kind: end.kind,
            end: end.end,
        })?;
    }
    Ok(copy)
}

impl Net {
    /// A copy of the net: an equal one, with the same numbers, names and places. Refused only when out of memory.
    pub fn copy(&self, alloc: Global) -> Result<Net, AllocError>
        ensures { IfOk result (λ copy. copy ≡ self.now) }
    {
        Ok(Net {
            cells: cells(alloc, self.cells.as_slice())?,
            free: free_ends(alloc, self.free.as_slice())?,
            wires: Items::from_slice(alloc, self.wires.as_slice())?,
            places: Items::from_slice(alloc, self.places.as_slice())?,
            built: self.built,
        })
    }
}
