// Ends in cells that keep their numbers, while free ends get other numbers.
ghost use Rattle.std.specs.Prelude.{◌≡◌, ◌<◌, ℕ, length};
ghost use Rattle.in_arena.specs.declared.content.End.TheVariants.{Free};
ghost use Rattle.in_cells.specs.Copying.{moved_end, number_in};

use in_arena::{End, EndWord};

/// The end that leads to the same point, if free ends have these numbers and cells keep theirs.
pub(crate) fn numbered_end(numbers: &[u16], end: EndWord) -> EndWord
    requires { (k : ℕ) → end ≡ Free k → k < length numbers.now }
    ensures { result ≡ moved_end (λ z. z) (number_in numbers.now) end }
{
    match end.end() {
        End::Cell(_, _) => end,
        End::Free(number) => EndWord::free(u32::from(numbers[number as usize])),
    }
}
