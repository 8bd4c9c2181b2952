// Writing the partner of a point.
ghost use Rattle.in_arena.specs.RowStarts.{IsRowStart};
ghost use Rattle.in_cells.specs.Shown.{IsPlaceAt, IsWritten, AreExchanged};

use in_arena::{Arena, End, EndWord, RowStart};

/// Writes an end at a place of a live cell, or at a free end's number in the list. The row begins there.
#[inline(always)]
fn write(arena: &mut Arena, row: RowStart, ends: &mut [EndWord], at: EndWord, end: EndWord)
    requires row { IsRowStart row arena.old }
    requires place { IsPlaceAt arena.old ends.old at }
    ensures { IsWritten at end arena.old ends.old arena.new ends.new }
{
    if !arena.set_at_in(row, at, end) {
        if let End::Free(number) = at.end() {
            ends[number as usize] = end;
        }
    }
}

/// Writes each of two ends at the other.
#[inline(always)]
pub fn exchange(arena: &mut Arena, ends: &mut [EndWord], one: EndWord, other: EndWord)
    requires one { IsPlaceAt arena.old ends.old one }
    requires other { IsPlaceAt arena.old ends.old other }
    ensures { AreExchanged one other arena.old ends.old arena.new ends.new }
{
    exchange_in(arena, arena.row(), ends, one, other);
}

/// The same for a row that begins there.
#[inline(always)]
pub fn exchange_in(
    arena: &mut Arena,
    row: RowStart,
    ends: &mut [EndWord],
    one: EndWord,
    other: EndWord,
)
    requires row { IsRowStart row arena.old }
    requires one { IsPlaceAt arena.old ends.old one }
    requires other { IsPlaceAt arena.old ends.old other }
    ensures { AreExchanged one other arena.old ends.old arena.new ends.new }
{
    // Mostly both are near places: so both stores come after one test.
    if one.is_near() && other.is_near() {
        arena.set_near_in(row, one, other);
        arena.set_near_in(row, other, one);
        return;
    }
    write(arena, row, ends, one, other);
    write(arena, row, ends, other, one);
}
