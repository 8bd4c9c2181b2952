// A member is placed in cells of a stock.
ghost use Rattle.std.specs.Prelude.{◌≡◌, ◌≤◌, ◌<◌, ℕ, [], length, Some, slice_get, vec_capacity};
ghost use Rattle.in_arena.specs.Arenas.{changed};
ghost use Rattle.in_arena.specs.Bags.{IsInBag, AreOfOne};
ghost use Rattle.in_arena.specs.Changes.{HasAllCells};
ghost use Rattle.in_arena.specs.Classes.{IsNumberOf};
ghost use Rattle.in_arena.specs.declared.content.CellNo.{CellNo as Number};
ghost use Rattle.in_compile.specs.Cells.{count_of, IsEnough};
ghost use Rattle.in_compile.specs.Members.{AgentParts, IsAtPort};
ghost use Rattle.in_compile.specs.Placing.{AreCellsOf, IsPlacedMember, TakesCells, HasNoCell, end_in, content};
ghost use Rattle.in_compile.specs.PlacingSteps.{AreTakenBelow, AreWrittenBelow, IsInside};
ghost use Rattle.in_compile.specs.Stocks.{held};

use crate::joints::Joint;
use crate::member::Member;
use crate::placed::Placed;
use crate::stock::Stock;
use in_arena::{Bag, CellIndex, EndWord};
use in_base::use_promise;

/// The end for a joint, if the agents have these cells.
#[inline(always)]
pub(crate) fn end_of(numbers: &[CellIndex], joint: Joint) -> EndWord
    requires inside { IsInside (length numbers.now) joint }
    requires port { IsAtPort joint }
    ensures { result ≡ end_in numbers.now joint }
{
    match joint {
        Joint::ToAgent(agent, place) => EndWord::place_of(numbers[agent as usize], place),
        Joint::ToBoundary(end) => EndWord::free(u32::from(end)),
    }
}

/// Takes a cell for each agent.
fn take_cells(member: &Member, stock: &mut Stock, numbers: &mut Vec<CellIndex>, bag: &mut Bag)
    requires none { numbers.old.items ≡ [] }
    requires room { length member.now.agents ≤ vec_capacity numbers.old }
    requires holds { IsEnough (count_of member.now.need) (held stock.old) }
    requires of_one { AreOfOne stock.old.bag bag.old }
    requires all { HasAllCells bag.old }
    requires empty { HasNoCell bag.old }
    ensures taken { AreTakenBelow member.now stock.old bag.old (length member.now.agents) stock.new numbers.new.items bag.new }
    ensures room { vec_capacity numbers.new ≡ vec_capacity numbers.old }
{
    use_promise!(member.is_sound());
    for agent in 0..member.agents() {
        let cell = stock.take(member.class(agent), bag);
        numbers.push_reserved(cell);
    }
}

/// Writes an agent in its cell.
#[inline(always)]
fn write_agent(member: &Member, numbers: &[CellIndex], bag: &mut Bag, agent: u32)
    requires there { agent < length member.now.agents }
    requires many { length numbers.now ≡ length member.now.agents }
    requires cell { (a : AgentParts) (n : Number) → slice_get member.now.agents agent ≡ Some a → slice_get numbers.now agent ≡ Some n → IsNumberOf bag.old.cells a.class n.0 × IsInBag bag.old n.0 }
    ensures { (a : AgentParts) (n : Number) → slice_get member.now.agents agent ≡ Some a → slice_get numbers.now agent ≡ Some n → bag.new ≡ changed bag.old n.0 (content numbers.now a) }
{
    use_promise!(member.is_sound());
    let cell = numbers[agent as usize];
    let places = member.places(agent);
    bag.begin(cell.no(), member.head(agent));
    for place in 0..places {
        let end = end_of(numbers, member.end(agent, place));
        bag.set(cell.no(), place, end);
    }
}

/// Writes each agent in its cell.
fn write_agents(member: &Member, numbers: &[CellIndex], bag: &mut Bag)
    requires many { length numbers.now ≡ length member.now.agents }
    requires classes { (k : ℕ) (a : AgentParts) (n : Number) → slice_get member.now.agents k ≡ Some a → slice_get numbers.now k ≡ Some n → IsNumberOf bag.old.cells a.class n.0 }
    requires cells { AreCellsOf bag.old numbers.now }
    requires all { HasAllCells bag.old }
    ensures { AreWrittenBelow member.now numbers.now bag.old (length member.now.agents) bag.new }
{
    for agent in 0..member.agents() {
        write_agent(member, numbers, bag, agent);
    }
}

/// Places a member: each of its agents in a cell of the stock, with its wires to other agents of the member and, at boundary ends, these ends'
/// numbers. The stock has to hold the member's need; `placed` has to have no cells, to be of the stock's arena, and to have room for the
/// member's agents. It takes no memory.
pub fn place_into(member: &Member, stock: &mut Stock, placed: &mut Placed)
    requires holds { IsEnough (count_of member.now.need) (held stock.old) }
    requires room { length member.now.agents ≤ placed.old.room }
    requires of_one { AreOfOne stock.old.bag placed.old.bag }
    requires empty { HasNoCell placed.old.bag }
    ensures placed { IsPlacedMember member.now placed.new }
    ensures takes { TakesCells member.now.need placed.new.cells stock.old stock.new }
    ensures same { AreOfOne placed.old.bag placed.new.bag × (placed.new.room ≡ placed.old.room) }
{
    use_promise!(member.is_sound());
    let Placed { numbers, bag } = placed;
    numbers.clear();
    take_cells(member, stock, numbers, bag);
    write_agents(member, numbers.as_slice(), bag);
}
