// Cells that are begun, written and renewed in place, and ends in words.
ghost use Rattle.std.specs.Prelude.{◌≡◌, ◌≤◌, length};
ghost use Rattle.in_arena.specs.Arenas.{NoneLeased, state_at};
ghost use Rattle.in_arena.specs.Classes.{Holds};
ghost use Rattle.in_arena.specs.EndWords.{HaveWords};
ghost use Rattle.in_arena.specs.States.{places};

use crate::leases::{expect, expect_cell, expect_free, expect_has_word, expect_words};
use in_arena::{Arena, CellClass, CellNo, End, EndWord, HeadWord, PlaceStep};
use std::process::Abort;

// An end is the one that its word encodes, and it is the principal port of that cell or of none.
pub fn expect_word(rt: &impl Abort, end: End, principal: Option<CellNo>) {
    expect_has_word(rt, end);
    let word = EndWord::of(end);
    expect_end(rt, word.end(), end);
    assert!(rt; word.principal() == principal);
}

// Two ends are the same.
pub fn expect_end(rt: &impl Abort, found: End, wanted: End) {
    assert!(rt; found == wanted);
}

// The word of a principal port, moved to this place.
pub fn moved(rt: &impl Abort, cell: CellNo, place: u8) -> End {
    expect_has_word(rt, End::Cell(cell, place));
    EndWord::port(cell, 0).at(PlaceStep::to(place)).end()
}

// Begins all `count` free cells of a class, while `others.1` of the class `others.0` are free, and retires them.
pub fn begin_all(
    rt: &impl Abort,
    arena: &mut Arena,
    class: CellClass,
    count: u32,
    others: (CellClass, u32),
)
    ensures { arena.new ≡ arena.old }
{
    expect_free(rt, arena, class, count);
    assert!(rt; count < 33_554_432);
    match arena.begin(class, HeadWord::of(count, class.least())) {
        Some(cell) => {
            assert!(rt; count > 0);
            begin_all(rt, arena, class, count - 1, others);
            arena.retire(cell.no());
        }
        None => {
            expect(rt, count, 0);
            expect_free(rt, arena, others.0, others.1);
        }
    }
}

// A cell is begun, and written place by place; then it is renewed with another symbol, and written again.
pub fn make_twice(
    rt: &impl Abort,
    arena: &mut Arena,
    class: CellClass,
    symbols: (u32, u32),
    first: &[End],
    second: &[End],
) -> CellNo
    requires none { NoneLeased arena.old }
    requires first { Holds class (length first.now) × (length first.now ≤ 17) }
    requires second { Holds class (length second.now) × (length second.now ≤ 17) }
    ensures { NoneLeased arena.new × (places (state_at arena.new result.0) ≡ length second.now) }
{
    expect_words(rt, symbols.0, first);
    expect_words(rt, symbols.1, second);
    let cell = arena
        .begin(class, HeadWord::of(symbols.0, first.len() as u8))
        .expect(rt, "a free cell")
        .no();
    write_words(arena, cell, first);
    expect_cell(rt, arena, cell, symbols.0, first);
    let renewed = arena.renew(cell, HeadWord::of(symbols.1, second.len() as u8));
    write_words(arena, renewed.no(), second);
    renewed.no()
}

// Writes these ends at the places of a live cell.
fn write_words(arena: &mut Arena, cell: CellNo, ends: &[End])
    requires cell { NoneLeased arena.old × (places (state_at arena.old cell.0) ≡ length ends.now) × (length ends.now ≤ 17) }
    requires words { HaveWords ends.now }
    ensures { NoneLeased arena.new × (places (state_at arena.new cell.0) ≡ length ends.now) × (arena.new.cells ≡ arena.old.cells) }
{
    for place in 0..ends.len() {
        arena.set_word(cell, place as u8, EndWord::of(ends[place]));
    }
}
