// Agents in leased cells, before they are the arena's.
ghost use Rattle.std.specs.Prelude.{◌≡◌, ◌<◌, [], length, Some, IfOk, slice_get};
ghost use Rattle.in_arena.specs.Bags.{IsBagOf, AreOfOne, empty_bag};
ghost use Rattle.in_arena.specs.Changes.{HasAllCells};
ghost use Rattle.in_arena.specs.States.{Vacant, IsLive, IsLeased};
ghost use Rattle.in_compile.specs.Placing.{AreCellsOf, AreWritten, HasNoCell};
ghost use Rattle.in_compile.specs.PlacingSteps.{AreOnTheWay};
ghost use Rattle.in_compile.specs.Stocks.{Regains};

use in_arena::{Arena, Bag, CellIndex, CellNo};
use in_base::use_promise;
use std::alloc::{AllocError, Global};
use std::marker::Model;

/// The agents of a member in leased cells: the number of each agent's cell, and the cells. It is kept from one member to the next, so placing takes
/// no memory; after `settle` it has no cells, but still has their numbers.
#[derive(Drop)]
pub struct Placed {
    pub(crate) numbers: Vec<CellIndex>,
    pub(crate) bag: Bag,
}

impl Model for Placed {
    ghost use Rattle.in_compile.specs.Placing.{PlacedParts};

    ghost Value = { PlacedParts };

    ghost use Rattle.in_compile.specs.PlacedInside.{placed_view, KeepsPlaced};

    ghost view = { placed_view };

    ghost invariant = { KeepsPlaced };
}

/// Makes the cells of a bag live, with the words written in them.
fn settle_all(numbers: &[CellIndex], bag: &mut Bag, arena: &mut Arena)
    requires of { IsBagOf bag.old arena.old }
    requires all { HasAllCells arena.old }
    requires all_bag { HasAllCells bag.old }
    requires written { AreWritten bag.old numbers.now }
    ensures { AreOnTheWay (λ x. x) IsLive numbers.now (length numbers.now) arena.old bag.old arena.new bag.new }
{
    for number in 0..numbers.len() {
        arena.settle_from(bag, numbers[number].no());
    }
}

/// Frees the cells of a bag.
fn free_all(numbers: &[CellIndex], bag: &mut Bag, arena: &mut Arena)
    requires of { IsBagOf bag.old arena.old }
    requires all { HasAllCells arena.old }
    requires all_bag { HasAllCells bag.old }
    requires cells { AreCellsOf bag.old numbers.now }
    ensures { AreOnTheWay (λ _. Vacant) (λ x. IsLeased x → ⊥) numbers.now (length numbers.now) arena.old bag.old arena.new bag.new }
{
    for number in 0..numbers.len() {
        arena.give_back_from(bag, numbers[number].no());
    }
}

impl Placed {
    /// No cells yet, of this arena, with room for `room` agents. It is refused only when out of memory.
    pub fn empty(alloc: Global, arena: &Arena, room: u32) -> Result<Placed, AllocError>
        ensures { IfOk result (λ p. p ≡ record { cells = []; bag = empty_bag arena.now; room = room }) }
    {
        let numbers = Vec::with_capacity(alloc, room as usize)?;
        Ok(Placed {
            numbers,
            bag: arena.bag(),
        })
    }

    /// The number of its agents.
    pub fn agents(&self) -> u32
        ensures { result ≡ length self.now.cells }
    {
        self.numbers.len() as u32
    }

    /// The cell of the agent of that number.
    pub fn cell(&self, agent: u32) -> CellNo
        requires { agent < length self.now.cells }
        ensures { slice_get self.now.cells agent ≡ Some result }
    {
        self.index(agent).no()
    }

    /// The same, as a word names it.
    #[inline(always)]
    pub fn index(&self, agent: u32) -> CellIndex
        requires { agent < length self.now.cells }
        ensures { slice_get self.now.cells agent ≡ Some result }
    {
        self.numbers[agent as usize]
    }

    /// Makes its cells live with their content. Afterwards it has no cells, but still their numbers. It takes no memory.
    pub fn settle(&mut self, arena: &mut Arena)
        requires of { IsBagOf self.old.bag arena.old }
        requires written { AreWritten self.old.bag self.old.cells }
        ensures arena { Regains (λ x. x) arena.old self.old.bag arena.new }
        ensures numbers { (self.new.cells ≡ self.old.cells) × (self.new.room ≡ self.old.room) }
        ensures bag { HasNoCell self.new.bag × AreOfOne self.old.bag self.new.bag }
    {
        use_promise!(arena.cells());
        let Placed { numbers, bag } = self;
        settle_all(numbers.as_slice(), bag, arena);
    }

    /// Frees its cells. Afterwards it has none. It takes no memory.
    pub fn spend(&mut self, arena: &mut Arena)
        requires of { IsBagOf self.old.bag arena.old }
        requires cells { AreCellsOf self.old.bag self.old.cells }
        ensures arena { Regains (λ _. Vacant) arena.old self.old.bag arena.new }
        ensures numbers { (self.new.cells ≡ self.old.cells) × (self.new.room ≡ self.old.room) }
        ensures bag { HasNoCell self.new.bag × AreOfOne self.old.bag self.new.bag }
    {
        use_promise!(arena.cells());
        let Placed { numbers, bag } = self;
        free_all(numbers.as_slice(), bag, arena);
    }
}
