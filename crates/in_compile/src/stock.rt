// Cells that are held until agents are placed in them.
ghost use Rattle.std.specs.Prelude.{◌≡◌, ◌≤◌, ◌<◌, ◌+◌, ◌↔◌, IsTrue, [], length, IfOk, OnErr};
ghost use Rattle.in_arena.specs.declared.content.CellClass.{CellClass as Class};
ghost use Rattle.in_arena.specs.Arenas.{free_of};
ghost use Rattle.in_arena.specs.Bags.{AreOfOne, BagsAreApart, IsBagOf};
ghost use Rattle.in_arena.specs.Changes.{HasAllCells};
ghost use Rattle.in_arena.specs.States.{Vacant};
ghost use Rattle.in_compile.specs.Cells.{count_of, IsEnough};
ghost use Rattle.in_compile.specs.Stocks.{empty_stock, held, IsStockOf, HasRoom, Adds, AddsTo, Regains};
ghost use Rattle.in_compile.specs.PlacingSteps.{TakesOne};
ghost use Rattle.in_compile.specs.Listing.{listed, room_of, of_class, IsListing, IsOnTheWay};

use crate::cells::Need;
use crate::lists::Lists;
use in_arena::{Arena, Bag, CellClass, CellIndex};
use in_base::use_promise;
use std::alloc::{AllocError, Global};
use std::marker::Model;

/// Holds cells of one arena in which nothing is written, with room for a given number of each class. They are to be spent, as a bag's are.
#[derive(Drop)]
pub struct Stock {
    pub(crate) lists: Lists,
    pub(crate) bag: Bag,
}

// Contracts see a bag of cells, and the room: no order.
impl Model for Stock {
    ghost use Rattle.in_compile.specs.Stocks.{StockParts};

    ghost Value = { StockParts };

    ghost use Rattle.in_compile.specs.StockInside.{stock_view, IsStock};

    ghost view = { stock_view };

    ghost invariant = { IsStock };
}

/// Leases `count` cells of a class. They must be free, and there must be room for them.
fn lease_more(lists: &mut Lists, bag: &mut Bag, arena: &mut Arena, class: CellClass, count: u32)
    requires listing { IsListing bag.old (listed lists.old) }
    requires of { IsBagOf bag.old arena.old }
    requires all { HasAllCells arena.old }
    requires free { count ≤ free_of arena.old class }
    requires room { free_of bag.old class + count ≤ count_of (room_of lists.old) class }
    ensures listing { IsListing bag.new (listed lists.new) }
    ensures room { room_of lists.new ≡ room_of lists.old }
    ensures all { HasAllCells arena.new }
    ensures adds { Adds (of_class class count) arena.old bag.old arena.new bag.new }
{
    for _turn in 0..count {
        match arena.lease_to(class, bag) {
            Some(cell) => lists.push(class, cell),
            // As many cells of the class are free.
            None => unreachable!(),
        }
    }
}

/// Frees all its cells of a class.
fn give_back(lists: &mut Lists, bag: &mut Bag, arena: &mut Arena, class: CellClass)
    requires listing { IsListing bag.old (listed lists.old) }
    requires of { IsBagOf bag.old arena.old }
    requires all { HasAllCells arena.old }
    ensures listing { IsListing bag.new (listed lists.new) }
    ensures of { IsBagOf bag.new arena.new }
    ensures all { HasAllCells arena.new }
    ensures none { listed lists.new class ≡ [] }
    ensures others { (d : Class) → (d ≡ class → ⊥) → listed lists.new d ≡ listed lists.old d }
    ensures back { IsOnTheWay (λ _. Vacant) arena.old bag.old arena.new bag.new }
{
    for _turn in 0..lists.len(class) {
        let cell = lists.take(class);
        arena.give_back_from(bag, cell.no());
    }
}

impl Stock {
    /// A stock of this arena without cells, with room for as many of each class as `room` says. It is refused only when out of memory.
    pub fn empty(alloc: Global, arena: &Arena, room: Need) -> Result<Stock, AllocError>
        ensures { IfOk result (λ s. s ≡ empty_stock arena.now room) }
    {
        let lists = Lists::with_room(alloc, room)?;
        Ok(Stock {
            lists,
            bag: arena.bag(),
        })
    }

    /// Leases as many more cells of each class as `need` says. They have to be free and to fit the room, with those that it holds; it has to be
    /// of this arena. It takes no memory.
    pub fn add(&mut self, arena: &mut Arena, need: Need)
        requires of { IsStockOf self.old arena.old }
        requires free { IsEnough (count_of need) (free_of arena.old) }
        requires room { HasRoom self.old need }
        ensures { AddsTo need arena.old self.old arena.new self.new }
    {
        use_promise!(arena.cells());
        let Stock { lists, bag } = self;
        for class in CellClass::ALL {
            lease_more(lists, bag, arena, class, need.of(class));
        }
    }

    /// A stock of as many cells of each class as `need` says, which is its room too. They have to be free. Refused only when out of memory, and
    /// then the arena is as it was.
    pub fn fill(alloc: Global, arena: &mut Arena, need: Need) -> Result<Stock, AllocError>
        requires { IsEnough (count_of need) (free_of arena.old) }
        ensures filled { IfOk result (λ s. AddsTo need arena.old (empty_stock arena.old need) arena.new s) }
        ensures refused { OnErr result (arena.new ≡ arena.old) }
    {
        let mut stock = Stock::empty(alloc, arena, need)?;
        stock.add(arena, need);
        Ok(stock)
    }

    /// Whether it holds as many cells of each class as `need` says. It takes no memory.
    pub fn holds(&self, need: Need) -> bool
        ensures { IsTrue result ↔ IsEnough (count_of need) (held self.now) }
    {
        for class in CellClass::ALL {
            if self.lists.len(class) < need.of(class) as usize {
                return false;
            }
        }
        true
    }

    /// Moves a cell of this class to a bag that has none of the stock's cells.
    #[inline(always)]
    pub(crate) fn take(&mut self, class: CellClass, bag: &mut Bag) -> CellIndex
        requires some { 0 < held self.old class }
        requires of_one { AreOfOne self.old.bag bag.old }
        requires apart { BagsAreApart self.old.bag bag.old }
        requires all { HasAllCells bag.old }
        ensures { TakesOne self.old class bag.old result self.new bag.new }
    {
        let cell = self.lists.take(class);
        self.bag.move_to(cell.no(), bag);
        cell
    }

    /// Frees all its cells. It has to be of this arena. It takes no memory.
    pub fn spend(self, arena: &mut Arena)
        requires { IsStockOf self arena.old }
        ensures { Regains (λ _. Vacant) arena.old self.bag arena.new }
    {
        use_promise!(arena.cells());
        let Stock { mut lists, mut bag } = self;
        for class in CellClass::ALL {
            give_back(&mut lists, &mut bag, arena, class);
        }
    }
}
