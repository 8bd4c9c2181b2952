// A member is put into free cells of an arena.
ghost use Rattle.std.specs.Prelude.{◌≡◌, ◌≤◌, ◌<◌, ◌+◌, ℕ, [], length, Some, slice_get, vec_capacity};
ghost use Rattle.in_arena.specs.Arenas.{ArenaView, changed, free_of, state_at};
ghost use Rattle.in_arena.specs.Changes.{HasAllCells};
ghost use Rattle.in_arena.specs.Classes.{IsNumberOf};
ghost use Rattle.in_arena.specs.RowStarts.{IsRowStart};
ghost use Rattle.in_arena.specs.States.{Vacant, IsBegun, IsLive};
ghost use Rattle.in_arena.specs.declared.content.CellClass.TheVariants.{Small};
ghost use Rattle.in_arena.specs.declared.content.CellNo.{CellNo as Number};
ghost use Rattle.in_compile.specs.Cells.{count_of, IsEnough};
ghost use Rattle.in_compile.specs.Members.{AgentParts, class_at};
ghost use Rattle.in_compile.specs.Placing.{content};
ghost use Rattle.in_compile.specs.Putting.{AreBegunBelow, BeginsAgent, HasBegunTo, IsPut};

use crate::member::Member;
use crate::placed::Placed;
use crate::placing::end_of;
use in_arena::{Arena, CellClass, CellIndex, CellNo, EndWord, RowStart};
use in_base::use_promise;

impl Member {
    /// Makes a free cell live for the agent of that number: a cell of its class, with its symbol and its places, whose ends are open. Such a cell has
    /// to be free.
    #[inline(always)]
    pub fn begin(&self, agent: u32, arena: &mut Arena) -> CellIndex
        requires there { agent < length self.now.agents }
        requires all { HasAllCells arena.old }
        requires free { (a : AgentParts) → slice_get self.now.agents agent ≡ Some a → 0 < free_of arena.old a.class }
        ensures { (a : AgentParts) → slice_get self.now.agents agent ≡ Some a → BeginsAgent a arena.old result.0 arena.new }
    {
        use_promise!(self.is_sound());
        let begun = arena.begin(self.class(agent), self.head(agent));
        let Some(cell) = begun else {
            // A cell of that class is free.
            unreachable!()
        };
        cell
    }

    /// Makes free cells live for the agents from that number on, as long as they take small ones and one is free. Their principal ports are written at
    /// their numbers from `first` on. Returns the number of the first agent that has no cell.
    #[inline(always)]
    pub fn begin_small(
        &self,
        from: u32,
        arena: &mut Arena,
        points: &mut [EndWord],
        first: usize,
    ) -> u32
        requires some { from ≤ length self.now.agents }
        requires all { HasAllCells arena.old }
        requires room { first + length self.now.agents ≤ length points.old }
        ensures begun { (a : ArenaView) → HasBegunTo self.now a from arena.old first points.old → HasBegunTo self.now a result arena.new first points.new }
        ensures order { (from ≤ result) × (result ≤ length self.now.agents) }
        ensures small { (k : ℕ) → from ≤ k → k < result → class_at self.now k ≡ Some Small }
        ensures last { class_at self.now result ≡ Some Small → free_of arena.new Small ≡ 0 }
        ensures before { (k : ℕ) → k < first + from → slice_get points.new k ≡ slice_get points.old k }
        ensures after { (k : ℕ) → first + result ≤ k → slice_get points.new k ≡ slice_get points.old k }
        ensures long { length points.new ≡ length points.old }
    {
        use_promise!(self.is_sound());
        arena.begin_small(self.agents.as_slice(), from, points, first)
    }

    /// The same as `begin` once this live cell is free, which is of the agent's class and begins in that row. The agent then has it.
    #[inline(always)]
    pub fn renew(&self, agent: u32, cell: CellNo, row: RowStart, arena: &mut Arena) -> CellIndex
        requires there { agent < length self.now.agents }
        requires live { IsLive (state_at arena.old cell.0) }
        requires own { (a : AgentParts) → slice_get self.now.agents agent ≡ Some a → IsNumberOf arena.old.cells a.class cell.0 }
        requires row { IsRowStart row arena.old }
        requires all { HasAllCells arena.old }
        ensures { (a : AgentParts) → slice_get self.now.agents agent ≡ Some a → BeginsAgent a (changed arena.old cell.0 Vacant) result.0 arena.new }
    {
        use_promise!(self.is_sound());
        arena.renew_in(row, cell, self.head(agent))
    }

    /// The same once a live cell, which is of the class `own`, is free. That agent then has it where it takes a cell of this class.
    #[inline(always)]
    pub fn begin_in(&self, agent: u32, cell: CellNo, own: CellClass, arena: &mut Arena) -> CellIndex
        requires there { agent < length self.now.agents }
        requires live { IsLive (state_at arena.old cell.0) }
        requires own { IsNumberOf arena.old.cells own cell.0 }
        requires all { HasAllCells arena.old }
        requires free { (a : AgentParts) → slice_get self.now.agents agent ≡ Some a → 0 < free_of (changed arena.old cell.0 Vacant) a.class }
        ensures { (a : AgentParts) → slice_get self.now.agents agent ≡ Some a → BeginsAgent a (changed arena.old cell.0 Vacant) result.0 arena.new }
    {
        if self.class(agent).number() == own.number() {
            let row = arena.row();
            return self.renew(agent, cell, row, arena);
        }
        arena.retire_as(cell, own);
        self.begin(agent, arena)
    }
}

/// Begins a cell for each agent.
#[inline(always)]
fn begin_all(member: &Member, arena: &mut Arena, numbers: &mut Vec<CellIndex>)
    requires none { numbers.old.items ≡ [] }
    requires room { length member.now.agents ≤ vec_capacity numbers.old }
    requires all { HasAllCells arena.old }
    requires free { IsEnough (count_of member.now.need) (free_of arena.old) }
    ensures begun { AreBegunBelow member.now arena.old (length member.now.agents) arena.new numbers.new.items }
    ensures room { vec_capacity numbers.new ≡ vec_capacity numbers.old }
{
    use_promise!(member.is_sound());
    for agent in 0..member.agents() {
        let cell = member.begin(agent, arena);
        numbers.push_reserved(cell);
    }
}

/// Writes the other ends of an agent's wires into its cell.
#[inline(always)]
fn write(member: &Member, numbers: &[CellIndex], arena: &mut Arena, agent: u32)
    requires there { agent < length member.now.agents }
    requires many { length numbers.now ≡ length member.now.agents }
    requires begun { (a : AgentParts) (n : Number) → slice_get member.now.agents agent ≡ Some a → slice_get numbers.now agent ≡ Some n → IsBegun a.symbol.0 (length a.ends) (state_at arena.old n.0) }
    ensures { (a : AgentParts) (n : Number) → slice_get member.now.agents agent ≡ Some a → slice_get numbers.now agent ≡ Some n → arena.new ≡ changed arena.old n.0 (content numbers.now a) }
{
    use_promise!(member.is_sound());
    let cell = numbers[agent as usize];
    for place in 0..member.places(agent) {
        let end = end_of(numbers, member.end(agent, place));
        arena.set_word(cell.no(), place, end);
    }
}

/// Writes the other ends of each agent's wires into its cell.
#[inline(always)]
fn write_all(member: &Member, numbers: &[CellIndex], arena: &mut Arena)
    requires begun { (a : ArenaView) × AreBegunBelow member.now a (length member.now.agents) arena.old numbers.now }
    ensures { (a : ArenaView) → AreBegunBelow member.now a (length member.now.agents) arena.old numbers.now → IsPut member.now numbers.now a arena.new }
{
    for agent in 0..member.agents() {
        write(member, numbers, arena, agent);
    }
}

impl Placed {
    /// Puts a member into free cells of an arena: each agent in a cell of its class, with its wires to other agents of the member and, at boundary
    /// ends, these ends' numbers. It keeps the numbers of the cells, which are the arena's. Each class must have as many free cells as the
    /// member needs, and there must be room for its agents. It takes no memory.
    #[inline(always)]
    pub fn put(&mut self, member: &Member, arena: &mut Arena)
        requires free { IsEnough (count_of member.now.need) (free_of arena.old) }
        requires room { length member.now.agents ≤ self.old.room }
        ensures put { IsPut member.now self.new.cells arena.old arena.new }
        ensures vacant { (k : ℕ) (n : Number) → slice_get self.new.cells k ≡ Some n → state_at arena.old n.0 ≡ Vacant }
        ensures same { (self.new.bag ≡ self.old.bag) × (self.new.room ≡ self.old.room) }
    {
        use_promise!(arena.cells());
        use_promise!(member.is_sound());
        let Placed { numbers, bag: _ } = self;
        numbers.clear();
        begin_all(member, arena, numbers);
        write_all(member, numbers.as_slice(), arena);
    }
}
