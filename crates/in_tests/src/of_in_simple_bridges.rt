ghost use Rattle.std.specs.Prelude.{OnOk};
ghost use Rattle.in_simple_bridges.specs.Spans.{AreWithin};

use in_simple_bridges::on_cycles;
use sqlite_items::Items;
use std::alloc::{AllocError, Global};

/// Adds an edge between two of `count` vertices; others are left out.
fn add_within(
    within: &mut Items<(usize, usize)>,
    count: usize,
    one: usize,
    other: usize,
) -> Result<(), AllocError>
    requires { AreWithin count within.old }
    ensures { OnOk result (AreWithin count within.new) }
{
    if one >= count {
        return Ok(());
    }
    if other >= count {
        return Ok(());
    }
    within.push((one, other))
}

/// The edges of a graph of `count` vertices, among these, that are on a cycle. Edges between other vertices are left out.
fn cycles(
    alloc: Global,
    count: usize,
    edges: &[(usize, usize)],
) -> Result<Items<bool>, AllocError> {
    let mut within = Items::new(alloc);
    for (one, other) in edges {
        add_within(&mut within, count, *one, *other)?;
    }
    on_cycles(alloc, count, &within)
}

#[test]
fn cycles_are_told_from_bridges(rt: HostRuntime) {
    // a triangle, a bridge out of it, two edges side by side, a loop, and a bridge at the end
    let edges = [
        (0, 1),
        (1, 2),
        (2, 0),
        (2, 3),
        (3, 4),
        (4, 3),
        (4, 4),
        (4, 5),
    ];
    let wanted = [true, true, true, false, true, true, true, false];
    let found = cycles(rt.alloc(), 6, &edges);
    assert!(rt; matches!(&found, Ok(cycles) if cycles.as_slice() == wanted.as_slice()));
}
