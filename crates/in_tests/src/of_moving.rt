ghost use Rattle.in_arena.specs.Arenas.{NoneLeased};

use crate::copies::{copy_all, expect_agent};
use crate::leases::{expect, expect_free, fresh, make};
use in_arena::{Arena, CellClass, CellIndex, CellNo, End};
use std::process::Abort;
use std::test::Fail;

// Two agents with two wires between them, and a free end at each principal port.
fn make_ring(rt: &impl Abort, from: &mut Arena)
    requires { NoneLeased from.old }
    ensures { NoneLeased from.new }
{
    let ends = [
        End::Free(0),
        End::Cell(CellNo(1), 1),
        End::Cell(CellNo(1), 2),
    ];
    expect(rt, make(rt, from, CellClass::Small, 7, &ends).0, 0);
    let ends = [
        End::Free(1),
        End::Cell(CellNo(0), 1),
        End::Cell(CellNo(0), 2),
    ];
    expect(rt, make(rt, from, CellClass::Small, 8, &ends).0, 1);
}

// They are there, and their copies under these numbers.
fn expect_ring(rt: &impl Abort, from: &Arena, to: &Arena, names: &[CellIndex])
    requires from { NoneLeased from.now }
    requires to { NoneLeased to.now }
{
    assert!(rt; names.len() == 12);
    let (x, y) = (names[0].no(), names[1].no());
    let ends = [End::Free(6), End::Cell(y, 1), End::Cell(y, 2)];
    expect_agent(rt, to, x, 7, &ends);
    let ends = [End::Free(5), End::Cell(x, 1), End::Cell(x, 2)];
    expect_agent(rt, to, y, 8, &ends);
    let ends = [
        End::Free(0),
        End::Cell(CellNo(1), 1),
        End::Cell(CellNo(1), 2),
    ];
    expect_agent(rt, from, CellNo(0), 7, &ends);
    expect_free(rt, to, CellClass::Small, 0);
}

#[test]
fn a_ring_of_two_wires(rt: HostRuntime) -> Result<(), Fail> {
    let mut from = fresh(rt.alloc(), 4)?;
    make_ring(&rt, &mut from);
    let mut to = fresh(rt.alloc(), 2)?;
    let names = copy_all(&rt, rt.alloc(), &from, &[6, 5], &mut to)?;
    expect_ring(&rt, &from, &to, names.as_slice());
    Ok(())
}

// A chain of three agents, one of each class.
fn make_chain(rt: &impl Abort, from: &mut Arena)
    requires { NoneLeased from.old }
    ensures { NoneLeased from.new }
{
    let (small, large, wide) = (CellNo(0), CellNo(1), CellNo(2));
    let first = [End::Free(0), End::Cell(large, 3)];
    expect(rt, make(rt, from, CellClass::Small, 1, &first).0, small.0);
    let second = [
        End::Cell(wide, 0),
        End::Free(1),
        End::Free(1),
        End::Cell(small, 1),
    ];
    expect(rt, make(rt, from, CellClass::Large, 2, &second).0, large.0);
    let mut third = [End::Free(2); 17];
    third[0] = End::Cell(large, 0);
    expect(rt, make(rt, from, CellClass::Wide, 3, &third).0, wide.0);
}

// Two agents that are there before.
fn make_others(rt: &impl Abort, to: &mut Arena) -> (CellNo, CellNo)
    requires { NoneLeased to.old }
    ensures { NoneLeased to.new }
{
    let other = make(rt, to, CellClass::Small, 9, &[End::Free(4)]);
    let another = make(rt, to, CellClass::Large, 9, &[End::Free(3); 4]);
    (other, another)
}

// The chain's copies are there under these numbers, and the others as before.
fn expect_chain(rt: &impl Abort, to: &Arena, names: &[CellIndex], others: (CellNo, CellNo))
    requires { NoneLeased to.now }
{
    assert!(rt; names.len() == 3);
    let (x, y, z) = (names[0].no(), names[1].no(), names[2].no());
    expect_agent(rt, to, x, 1, &[End::Free(2), End::Cell(y, 3)]);
    let second = [End::Cell(z, 0), End::Free(1), End::Free(1), End::Cell(x, 1)];
    expect_agent(rt, to, y, 2, &second);
    let mut third = [End::Free(0); 17];
    third[0] = End::Cell(y, 0);
    expect_agent(rt, to, z, 3, &third);
    expect_agent(rt, to, others.0, 9, &[End::Free(4)]);
    expect_agent(rt, to, others.1, 9, &[End::Free(3); 4]);
}

// A chain is copied beside other agents.
#[test]
fn a_chain_beside_others(rt: HostRuntime) -> Result<(), Fail> {
    let mut from = fresh(rt.alloc(), 1)?;
    make_chain(&rt, &mut from);
    let mut to = fresh(rt.alloc(), 5)?;
    let others = make_others(&rt, &mut to);
    let names = copy_all(&rt, rt.alloc(), &from, &[2, 1, 0], &mut to)?;
    expect_chain(&rt, &to, names.as_slice(), others);
    Ok(())
}
