// Arenas with agents, and copies of all of them. The requirements of a copy are tested here at run time.
ghost use Rattle.std.specs.Prelude.{◌≡◌, ℕ, length, IfOk, Some};
ghost use Rattle.in_arena.specs.Arenas.{NoneLeased, state_at};
ghost use Rattle.in_arena.specs.States.{IsLive, end_at};
ghost use Rattle.in_arena.specs.declared.content.End.{End as EndOf};
ghost use Rattle.in_cells.specs.Copying.{ArePart, AreAllLive, AreClosed, HasCellsFor, IsListOfLive, LeadsInto};

use crate::leases::expect_cell;
use in_arena::{Arena, CellClass, CellIndex, CellNo, End};
use in_cells::copy;
use std::alloc::{AllocError, Global};
use std::process::Abort;

// The end leads to one of these agents, which are all, or to a free end below this number.
fn expect_end(rt: &impl Abort, from: &Arena, agents: &[CellNo], many: usize, end: End)
    requires none { NoneLeased from.now }
    requires all { AreAllLive from.now agents.now }
    ensures { LeadsInto agents.now many end }
{
    match end {
        End::Cell(cell, _) => {
            assert!(rt; cell.0 < from.all_cells());
            assert!(rt; from.is_live(cell));
        }
        End::Free(number) => assert!(rt; (number as usize) < many),
    }
}

// .. and so do the ends of an agent.
fn expect_inside(rt: &impl Abort, from: &Arena, agents: &[CellNo], many: usize, agent: CellNo)
    requires none { NoneLeased from.now }
    requires all { AreAllLive from.now agents.now }
    requires live { IsLive (state_at from.now agent.0) }
    ensures { (i : ℕ) (e : EndOf) → end_at (state_at from.now agent.0) i ≡ Some e → LeadsInto agents.now many e }
{
    for place in 0..from.places(agent) {
        expect_end(rt, from, agents, many, from.port(agent, place));
    }
}

// .. and the ends of each agent.
fn expect_closed(rt: &impl Abort, from: &Arena, agents: &[CellNo], many: usize)
    requires none { NoneLeased from.now }
    requires part { ArePart from.now agents.now }
    requires all { AreAllLive from.now agents.now }
    ensures { AreClosed from.now agents.now many }
{
    for number in 0..agents.len() {
        expect_inside(rt, from, agents, many, agents[number]);
    }
}

// Each class has as many free cells as there are agents.
fn expect_room(rt: &impl Abort, from: &Arena, agents: &[CellNo], to: &Arena)
    ensures { HasCellsFor from.now agents.now to.now }
{
    // So that the arena's invariant is known.
    let _ = from;
    assert!(rt; agents.len() <= to.free_count(CellClass::Small) as usize);
    assert!(rt; agents.len() <= to.free_count(CellClass::Large) as usize);
    assert!(rt; agents.len() <= to.free_count(CellClass::Wide) as usize);
}

// The live cells of an arena.
fn live_cells(alloc: Global, arena: &Arena) -> Result<Vec<CellNo>, AllocError>
    requires { NoneLeased arena.now }
    ensures { IfOk result (λ v. IsListOfLive arena.now v.items) }
{
    let mut cells = Vec::new(alloc);
    for number in 0..arena.all_cells() {
        let cell = CellNo(number);
        if arena.is_live(cell) {
            cells.push(cell)?;
        }
    }
    Ok(cells)
}

// Copies all agents of one arena to another. Returns the number that each cell has there.
pub fn copy_all(
    rt: &impl Abort,
    alloc: Global,
    from: &Arena,
    ends: &[u16],
    to: &mut Arena,
) -> Result<Vec<CellIndex>, AllocError>
    requires none { NoneLeased from.now }
    requires none_to { NoneLeased to.old }
    ensures { NoneLeased to.new }
{
    let agents = live_cells(alloc, from)?;
    let mut names = vec![in alloc; CellIndex::first(); from.all_cells() as usize]?;
    expect_closed(rt, from, agents.as_slice(), ends.len());
    expect_room(rt, from, agents.as_slice(), to);
    copy(from, agents.as_slice(), ends, to, names.as_mut_slice());
    Ok(names)
}

// A live cell has this symbol and these ends.
pub fn expect_agent(rt: &impl Abort, arena: &Arena, cell: CellNo, symbol: u32, ends: &[End])
    requires { NoneLeased arena.now }
{
    assert!(rt; cell.0 < arena.all_cells());
    assert!(rt; arena.is_live(cell));
    assert!(rt; arena.places(cell) as usize == ends.len());
    expect_cell(rt, arena, cell, symbol, ends);
}
