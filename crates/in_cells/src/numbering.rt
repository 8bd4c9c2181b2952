// Free ends get other numbers.
ghost use Rattle.std.specs.Prelude.{◌≤◌, length};
ghost use Rattle.in_cells.specs.Copying.{number_in};
ghost use Rattle.in_cells.specs.TakingOut.{AreLedTo, AreNumberedAnew};

use in_arena::{Arena, End, EndWord};
use in_base::use_promise;

/// Writes the new number of each free end at the place that leads to it: free end k gets `numbers[k]`. The list has the other end of each free
/// end's wire, and isn't changed. It takes no memory.
pub fn number_anew(arena: &mut Arena, ends: &[EndWord], numbers: &[u16])
    requires led { AreLedTo arena.old ends.now }
    requires numbers { length ends.now ≤ length numbers.now }
    ensures { AreNumberedAnew (number_in numbers.now) arena.old arena.new }
{
    use_promise!(arena.cells());
    for number in 0..ends.len() {
        if let End::Cell(cell, place) = ends[number].end() {
            arena.set_word(cell, place, EndWord::free(u32::from(numbers[number])));
        }
    }
}
