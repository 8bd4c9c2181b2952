// The words of a row, cell by cell.
ghost use Rattle.std.specs.Prelude.{◌≡◌, ◌≤◌, ◌<◌, ◌+◌, ◌*◌, length, Some, get_or, None, slice_set};
ghost use Rattle.in_memory.specs.Places.{IsFilled};
ghost use Rattle.in_arena.specs.Classes.{Holds, amount, width};
ghost use Rattle.in_arena.specs.EndWords.{HaveWords, numbers};
ghost use Rattle.in_arena.specs.FreeLists.{ListsFree, list_in};
ghost use Rattle.in_arena.specs.Limiting.{AreAllowed};
ghost use Rattle.in_arena.specs.Rows.{BeginsNew, EachListsFree, HasContent, MakesReady, IsFirstWritten, IsUnwritten, IsTakenBack, IsWrittenAt, OwnsOne, Rewrites};
ghost use Rattle.in_arena.specs.Starts.{AreStarts};
ghost use Rattle.in_arena.specs.Words.{AreWhole, Content, IsHead, cell_in, count_in, words_of};

use crate::content::{CellClass, CellCounts, CellNo, End, SymbolWord};
use crate::free_list::{FreeList, FreeLists};
use crate::head::HeadWord;
use crate::spot::{HEAD, Spot, Starts, near_word, place_word};
use crate::word::EndWord;
use in_memory::{Base, Cells};

/// The head of a cell.
#[inline(always)]
pub fn head_of(words: &Cells<EndWord>, base: Base<EndWord>, cell: CellNo) -> EndWord
    requires { (base.ptr ≡ words.now.at) × IsFilled words.now.slots (4 * cell.0 + 3) }
    ensures { get_or words.now.slots (4 * cell.0 + 3) None ≡ Some (Some result) }
{
    *words.get(base, near_word(cell, HEAD))
}

/// Whether a cell of the class is free. If so, one is the first of the list afterwards.
#[inline(always)]
pub fn is_ready(
    words: &mut Cells<EndWord>,
    base: Base<EndWord>,
    cells: CellCounts,
    starts: &Starts,
    class: CellClass,
    lists: &mut FreeLists,
) -> bool
    requires words { (base.ptr ≡ words.old.at) × AreAllowed cells × AreWhole cells words.old.slots }
    requires starts { AreStarts cells starts.now }
    requires lists { EachListsFree cells words.old.slots lists.old }
    ensures { MakesReady cells class words.old lists.old result words.new lists.new }
{
    if lists.of(class).next != starts.amount(class) {
        return true;
    }
    list_new(words, base, cells, starts, class, lists)
}

/// Writes a cell that was never written: this head, and an end at each place.
#[inline(always)]
fn write_new(
    words: &mut Cells<EndWord>,
    base: Base<EndWord>,
    spot: Spot,
    starts: &Starts,
    head: EndWord,
)
    requires words { (base.ptr ≡ words.old.at) × AreAllowed spot.cells × (spot.index < amount spot.cells spot.class) × (length words.old.slots ≡ words_of spot.cells) }
    requires starts { AreStarts spot.cells starts.now }
    requires new { IsUnwritten words.old.slots spot }
    requires head { IsHead head }
    ensures { IsFirstWritten words.old spot head words.new }
{
    let cell = CellNo(starts.first(spot.class) + spot.index);
    for place in 0..spot.class.width() {
        let at = place_word(spot.cells, *starts, cell, place);
        words.write(base, at, EndWord::free(0));
    }
    words.write(base, near_word(cell, HEAD), head);
}

/// Puts the first cell of the class that was never used on the list, which is empty. Returns `false` if all were used.
#[inline(always)]
fn list_new(
    words: &mut Cells<EndWord>,
    base: Base<EndWord>,
    cells: CellCounts,
    starts: &Starts,
    class: CellClass,
    lists: &mut FreeLists,
) -> bool
    requires words { (base.ptr ≡ words.old.at) × AreAllowed cells × AreWhole cells words.old.slots }
    requires starts { AreStarts cells starts.now }
    requires lists { EachListsFree cells words.old.slots lists.old }
    requires empty { (list_in lists.old class).next ≡ amount cells class }
    ensures { MakesReady cells class words.old lists.old result words.new lists.new }
{
    let list = lists.of(class);
    let end = starts.amount(class);
    if list.fresh == end {
        return false;
    }
    let spot = Spot {
        class,
        index: list.fresh,
        cells,
    };
    write_new(words, base, spot, starts, EndWord::port(CellNo(end), 0));
    lists.set(
        class,
        FreeList {
            next: list.fresh,
            fresh: list.fresh + 1,
            free: list.free,
        },
    );
    true
}

/// Makes the first cell of the class that was never used live with this head, which isn't that of a free cell, where the list is empty. Returns its
/// number, or none if all were used.
#[inline(always)]
pub fn begin_new(
    words: &mut Cells<EndWord>,
    base: Base<EndWord>,
    cells: CellCounts,
    starts: &Starts,
    class: CellClass,
    head: EndWord,
    lists: &mut FreeLists,
) -> Option<CellNo>
    requires words { (base.ptr ≡ words.old.at) × AreAllowed cells × AreWhole cells words.old.slots }
    requires starts { AreStarts cells starts.now }
    requires lists { EachListsFree cells words.old.slots lists.old }
    requires empty { (list_in lists.old class).next ≡ amount cells class }
    requires head { IsHead head × Holds class (count_in head) }
    ensures { BeginsNew cells class head words.old lists.old result words.new lists.new }
{
    let list = lists.of(class);
    if list.fresh == starts.amount(class) {
        return None;
    }
    let spot = Spot {
        class,
        index: list.fresh,
        cells,
    };
    let cell = CellNo(starts.first(class) + list.fresh);
    write_new(words, base, spot, starts, head);
    lists.use_fresh(class);
    Some(cell)
}

/// Takes another owner's cell back as a free one.
#[inline(always)]
pub fn take_back(
    words: &mut Cells<EndWord>,
    base: Base<EndWord>,
    spot: Spot,
    one: Cells<EndWord>,
    lists: &mut FreeLists,
)
    requires words { (base.ptr ≡ words.old.at) × AreAllowed spot.cells × AreWhole spot.cells words.old.slots }
    requires lists { EachListsFree spot.cells words.old.slots lists.old }
    requires one { OwnsOne words.old spot one }
    ensures { IsTakenBack words.old lists.old spot words.new lists.new }
{
    let list = lists.of(spot.class);
    words.join(one);
    words.write(base, spot.head(), EndWord::port(CellNo(list.next), 0));
    lists.push(spot.class, spot.index);
}

/// Writes the head of a cell that is written. The ends at its places stay.
#[inline(always)]
pub fn begin_cell(words: &mut Cells<EndWord>, base: Base<EndWord>, spot: Spot, head: HeadWord)
    requires words { (base.ptr ≡ words.old.at) × AreAllowed spot.cells × (spot.index < amount spot.cells spot.class) × AreWhole spot.cells words.old.slots }
    requires written { IsWrittenAt words.old.slots spot }
    ensures { (x : Content) → cell_in spot.cells words.old.slots spot.class spot.index ≡ Some (Some x) → Rewrites words.old spot (record { word = head.word; count = head.count; ends = x.ends }) words.new }
{
    words.write(base, spot.head(), head.word());
}

/// Writes the end at a place of a cell that is written.
#[inline(always)]
pub fn set_end(words: &mut Cells<EndWord>, base: Base<EndWord>, spot: Spot, place: u8, end: EndWord)
    requires words { (base.ptr ≡ words.old.at) × AreAllowed spot.cells × (spot.index < amount spot.cells spot.class) × AreWhole spot.cells words.old.slots }
    requires written { IsWrittenAt words.old.slots spot }
    requires place { place < width spot.class }
    ensures { (x : Content) → cell_in spot.cells words.old.slots spot.class spot.index ≡ Some (Some x) → Rewrites words.old spot (record { word = x.word; count = x.count; ends = slice_set x.ends place end }) words.new }
{
    words.write(base, spot.word(place), end);
}

/// Writes the symbol word of a cell that is written, and the ends to its first places.
pub fn write_cell(
    words: &mut Cells<EndWord>,
    base: Base<EndWord>,
    spot: Spot,
    symbol: SymbolWord,
    ends: &[End],
)
    requires words { (base.ptr ≡ words.old.at) × AreAllowed spot.cells × (spot.index < amount spot.cells spot.class) × AreWhole spot.cells words.old.slots }
    requires written { IsWrittenAt words.old.slots spot }
    requires few { length ends.now ≤ width spot.class }
    requires symbol { symbol < numbers }
    requires ends { HaveWords ends.now }
    ensures { (x : Content) × HasContent symbol ends.now x × Rewrites words.old spot x words.new }
{
    for (place, end) in ends.iter().enumerate() {
        set_end(words, base, spot, place as u8, EndWord::of(*end));
    }
    begin_cell(words, base, spot, HeadWord::of(symbol, ends.len() as u8));
}
