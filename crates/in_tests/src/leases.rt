// Arenas for tests.
ghost use Rattle.std.specs.Prelude.{◌≡◌, ◌<◌, ◌≤◌, length, slice_set, IfOk};
ghost use Rattle.in_arena.specs.States.{Live, IsLive, places};
ghost use Rattle.in_arena.specs.Arenas.{NoneLeased, state_at, written};
ghost use Rattle.in_arena.specs.Classes.{Holds};
ghost use Rattle.in_arena.specs.EndWords.{HasWord, HaveWords, numbers};

use in_arena::{Arena, CellClass, CellNo, End, Lease};
use std::alloc::{AllocError, Global};
use std::process::Abort;
use std::thread;
use std::thread::Threads;

// An arena without leased cells.
pub fn fresh(alloc: Global, cells: u32) -> Result<Arena, AllocError>
    requires { cells ≤ 1048576 }
    ensures { IfOk result (λ a. NoneLeased a) }
{
    Arena::new(alloc, cells)
}

// Two numbers are the same. Tests compare by calls such as this, since a comparison in their own body is proved with all their values.
pub fn expect(rt: &impl Abort, found: u32, wanted: u32) {
    assert_eq!(rt; found, wanted);
}

// This many cells of a class are free.
pub fn expect_free(rt: &impl Abort, arena: &Arena, class: CellClass, wanted: u32) {
    expect(rt, arena.free_count(class), wanted);
}

// Leases all `count` free cells of a class, while `others.1` of the class `others.0` are free, and gives them back.
pub fn lease_all(
    rt: &impl Abort,
    arena: &mut Arena,
    class: CellClass,
    count: u32,
    others: (CellClass, u32),
)
    ensures { arena.new ≡ arena.old }
{
    expect_free(rt, arena, class, count);
    match arena.lease(class) {
        Some(lease) => {
            assert!(rt; lease.class() == class);
            assert!(rt; count > 0);
            lease_all(rt, arena, class, count - 1, others);
            arena.give_back(lease);
        }
        None => {
            expect(rt, count, 0);
            expect_free(rt, arena, others.0, others.1);
        }
    }
}

// Leases all `count` free cells of a class, gives one of them back and leases it again.
pub fn one_back(rt: &impl Abort, arena: &mut Arena, class: CellClass, count: u32)
    ensures { arena.new ≡ arena.old }
{
    let Some(lease) = arena.lease(class) else {
        expect(rt, count, 0);
        return;
    };
    assert!(rt; count > 0);
    if count == 1 {
        lease_all(rt, arena, class, 0, (class, 0));
        let cell = lease.cell();
        arena.give_back(lease);
        expect(rt, next_cell(rt, arena, class).0, cell.0);
    } else {
        one_back(rt, arena, class, count - 1);
        arena.give_back(lease);
    }
}

// The cell that a lease gives, which goes back.
pub fn next_cell(rt: &impl Abort, arena: &mut Arena, class: CellClass) -> CellNo
    ensures { arena.new ≡ arena.old }
{
    let lease = arena.lease(class).expect(rt, "a free cell");
    let cell = lease.cell();
    arena.give_back(lease);
    cell
}

// Each arena has a cell on lease, and takes its own back.
pub fn two_leases(rt: &impl Abort, one: &mut Arena, other: &mut Arena, class: CellClass)
    ensures { (one.new ≡ one.old) × (other.new ≡ other.old) }
{
    let first = one.lease(class).expect(rt, "a free cell");
    let second = other.lease(class).expect(rt, "a free cell");
    one.give_back(first);
    other.give_back(second);
}

// The end has a word.
pub fn expect_has_word(rt: &impl Abort, end: End)
    ensures { HasWord end }
{
    match end {
        End::Cell(cell, place) => {
            assert!(rt; cell.0 < 33_554_432);
            assert!(rt; place < 31);
        }
        End::Free(number) => assert!(rt; number < 33_554_432),
    }
}

// The symbol's number and the ends have words.
pub fn expect_words(rt: &impl Abort, symbol: u32, ends: &[End])
    ensures symbol { symbol < numbers }
    ensures ends { HaveWords ends.now }
{
    assert!(rt; symbol < 33_554_432);
    for number in 0..ends.len() {
        expect_has_word(rt, ends[number]);
    }
}

// A live cell.
pub fn make(
    rt: &impl Abort,
    arena: &mut Arena,
    class: CellClass,
    symbol: u32,
    ends: &[End],
) -> CellNo
    requires { NoneLeased arena.old × Holds class (length ends.now) }
    ensures { NoneLeased arena.new × (state_at arena.new result.0 ≡ Live symbol ends.now) }
{
    let mut lease = arena.lease(class).expect(rt, "a free cell");
    let cell = lease.cell();
    expect_words(rt, symbol, ends);
    lease.write(symbol, ends);
    arena.settle(lease);
    cell
}

// This place of a live cell holds this end.
pub fn expect_port(rt: &impl Abort, arena: &Arena, cell: CellNo, place: u8, end: End)
    requires live { IsLive (state_at arena.now cell.0) }
    requires place { place < places (state_at arena.now cell.0) }
{
    assert_eq!(rt; arena.port(cell, place), end);
}

// A live cell has this symbol and these ends.
pub fn expect_cell(rt: &impl Abort, arena: &Arena, cell: CellNo, symbol: u32, ends: &[End])
    requires live { IsLive (state_at arena.now cell.0) }
    requires ends { (length ends.now ≤ 17) × (length ends.now ≤ places (state_at arena.now cell.0)) }
{
    for place in 0..ends.len() {
        expect_port(rt, arena, cell, place as u8, ends[place]);
    }
    expect(rt, arena.symbol(cell), symbol);
}

// A live cell with an end that was written again before it was settled.
pub fn make_with(
    rt: &impl Abort,
    arena: &mut Arena,
    class: CellClass,
    symbol: u32,
    ends: &[End],
    place: u8,
    end: End,
) -> CellNo
    requires { NoneLeased arena.old × Holds class (length ends.now) × (place < length ends.now) }
    ensures { NoneLeased arena.new × (state_at arena.new result.0 ≡ Live symbol (slice_set ends.now place end)) }
{
    let mut lease = arena.lease(class).expect(rt, "a free cell");
    let cell = lease.cell();
    expect_words(rt, symbol, ends);
    expect_has_word(rt, end);
    lease.write(symbol, ends);
    lease.set(place, end);
    arena.settle(lease);
    cell
}

fn filled(mut lease: Lease, symbol: u32, ends: &[End]) -> Lease
    requires many { Holds lease.class (length ends.now) }
    requires words { (symbol < numbers) × HaveWords ends.now }
    ensures { result ≡ written lease (Live symbol ends.now) }
{
    lease.write(symbol, ends);
    lease
}

// A live cell that another thread wrote.
pub fn make_elsewhere(
    rt: &(impl Abort + Threads + Sync),
    arena: &mut Arena,
    class: CellClass,
    symbol: u32,
    ends: &[End],
) -> CellNo
    requires { NoneLeased arena.old × Holds class (length ends.now) }
    ensures { NoneLeased arena.new × (state_at arena.new result.0 ≡ Live symbol ends.now) }
{
    let lease = arena.lease(class).expect(rt, "a free cell");
    let cell = lease.cell();
    expect_words(rt, symbol, ends);
    let (lease, ()) = thread::join(
        rt,
        move || -> Lease
            requires many { Holds lease.class (length ends.now) }
            requires words { (symbol < numbers) × HaveWords ends.now }
            ensures { result ≡ written lease (Live symbol ends.entry.now) }
        { filled(lease, symbol, ends) },
        || (),
    );
    arena.settle(lease);
    cell
}
