// Ends under new numbers of cells and free ends.
ghost use Rattle.std.specs.Prelude.{◌≡◌, length};
ghost use Rattle.in_cells.specs.Copying.{IsEndWithin, moved_end, name_in, number_in};

use in_arena::{CellIndex, End, EndWord};

/// The end that leads to the same point, if cells and free ends have these numbers.
#[inline(always)]
pub fn moved_end(names: &[CellIndex], ends: &[u16], end: EndWord) -> EndWord
    requires { IsEndWithin (length names.now) (length ends.now) end }
    ensures { result ≡ moved_end (name_in names.now) (number_in ends.now) end }
{
    match end.end() {
        End::Cell(cell, _) => end.moved_to(names[cell.0 as usize]),
        End::Free(number) => EndWord::free(u32::from(ends[number as usize])),
    }
}
