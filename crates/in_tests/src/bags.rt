// Bags for tests.
ghost use Rattle.std.specs.Prelude.{◌≡◌, ◌<◌, Some, length, slice_set};
ghost use Rattle.in_arena.specs.States.{Live, Leased};
ghost use Rattle.in_arena.specs.Arenas.{NoneLeased, changed, state_at};
ghost use Rattle.in_arena.specs.Bags.{IsBagOf, IsFor, IsInBag, LeasesTo};
ghost use Rattle.in_arena.specs.Classes.{Holds};
ghost use Rattle.in_arena.specs.EndWords.{HaveWords, numbers};

use crate::leases::{expect, expect_free, expect_has_word, expect_words};
use in_arena::{Arena, Bag, CellClass, CellNo, End, EndWord};
use std::process::Abort;
use std::thread;
use std::thread::Threads;

// Leases all `count` free cells of a class into a bag, and gives them back.
pub fn bag_all(rt: &impl Abort, arena: &mut Arena, bag: &mut Bag, class: CellClass, count: u32)
    requires { IsBagOf bag.old arena.old }
    ensures { (arena.new ≡ arena.old) × (bag.new ≡ bag.old) }
{
    expect_free(rt, arena, class, count);
    match arena.lease_to(class, bag) {
        Some(cell) => {
            assert!(rt; count > 0);
            bag_all(rt, arena, bag, class, count - 1);
            arena.give_back_from(bag, cell.no());
        }
        None => expect(rt, count, 0),
    }
}

// All cells of an arena, `count` of each class, are leased into a bag and given back, class by class.
pub fn bag_each(rt: &impl Abort, arena: &mut Arena, count: u32)
    ensures { arena.new ≡ arena.old }
{
    let mut bag = arena.bag();
    bag_all(rt, arena, &mut bag, CellClass::Small, count);
    bag_all(rt, arena, &mut bag, CellClass::Large, count);
    bag_all(rt, arena, &mut bag, CellClass::Wide, count);
}

// Leases a cell into a bag.
fn lease_into(rt: &impl Abort, arena: &mut Arena, class: CellClass, bag: &mut Bag) -> CellNo
    requires { IsBagOf bag.old arena.old }
    ensures { LeasesTo arena.old class bag.old (Some result) arena.new bag.new }
{
    arena.lease_to(class, bag).expect(rt, "a free cell").no()
}

// A live cell that was written in a bag.
pub fn make_in_bag(
    rt: &impl Abort,
    arena: &mut Arena,
    class: CellClass,
    symbol: u32,
    ends: &[End],
) -> CellNo
    requires { NoneLeased arena.old × Holds class (length ends.now) }
    ensures { NoneLeased arena.new × (state_at arena.new result.0 ≡ Live symbol ends.now) }
{
    let mut bag = arena.bag();
    let cell = lease_into(rt, arena, class, &mut bag);
    expect_words(rt, symbol, ends);
    bag.write(cell, symbol, ends);
    arena.settle_from(&mut bag, cell);
    cell
}

// .. and then moved to another bag, where one end was written again.
pub fn make_in_two_bags(
    rt: &impl Abort,
    arena: &mut Arena,
    class: CellClass,
    symbol: u32,
    ends: &[End],
    place: u8,
    end: End,
) -> CellNo
    requires { NoneLeased arena.old × Holds class (length ends.now) × (place < length ends.now) }
    ensures { NoneLeased arena.new × (state_at arena.new result.0 ≡ Live symbol (slice_set ends.now place end)) }
{
    let mut bag = arena.bag();
    let mut other = arena.bag();
    let cell = lease_into(rt, arena, class, &mut bag);
    expect_words(rt, symbol, ends);
    bag.write(cell, symbol, ends);
    bag.move_to(cell, &mut other);
    expect_has_word(rt, end);
    other.set(cell, place, EndWord::of(end));
    arena.settle_from(&mut other, cell);
    cell
}

fn filled(mut bag: Bag, cell: CellNo, symbol: u32, ends: &[End]) -> Bag
    requires of { IsInBag bag cell.0 × IsFor bag.cells cell.0 (length ends.now) }
    requires words { (symbol < numbers) × HaveWords ends.now }
    ensures { result ≡ changed bag cell.0 (Live symbol ends.now) }
{
    bag.write(cell, symbol, ends);
    bag
}

// A live cell that another thread wrote in a bag.
pub fn make_in_a_bag_elsewhere(
    rt: &(impl Abort + Threads + Sync),
    arena: &mut Arena,
    class: CellClass,
    symbol: u32,
    ends: &[End],
) -> CellNo
    requires { NoneLeased arena.old × Holds class (length ends.now) }
    ensures { NoneLeased arena.new × (state_at arena.new result.0 ≡ Live symbol ends.now) }
{
    let mut bag = arena.bag();
    let cell = lease_into(rt, arena, class, &mut bag);
    expect_words(rt, symbol, ends);
    let (mut bag, ()) = thread::join(
        rt,
        move || -> Bag
            requires of { IsInBag bag cell.0 × IsFor bag.cells cell.0 (length ends.now) }
            requires words { (symbol < numbers) × HaveWords ends.now }
            ensures { result ≡ changed bag cell.0 (Live symbol ends.entry.now) }
        { filled(bag, cell, symbol, ends) },
        || (),
    );
    arena.settle_from(&mut bag, cell);
    cell
}
