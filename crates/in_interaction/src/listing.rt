ghost use Rattle.std.specs.Prelude.{◌≡◌, ◌+◌, ◌*◌, ◌^◌, ◌<◌, ◌≤◌, ◌↔◌, List, length, count_by, is_some, IsTrue, IfOk, OnOk};
ghost use Rattle.in_syntax.specs.Grammar.{max_ports};
ghost use Rattle.in_syntax.specs.TextLimits.{most_free};
ghost use Rattle.in_interaction.specs.Listing.{unlisted, AddsWire, AddsWires, AreListed, AreEndsOf, HaveFewEnds};
ghost use Rattle.in_net.specs.Parts.{Parts};
ghost use Rattle.in_net.specs.TextNet.{ComesBefore};
ghost use Rattle.in_net.specs.declared.nets.Cell.{Cell};
ghost use Rattle.in_net.specs.declared.nets.FreeEnd.{FreeEnd};
ghost use Rattle.in_net.specs.declared.nets.Point.TheVariants.{Free};

use in_net::{AgentNo, Cell, Point, Wire};
use in_syntax::Place;
use sqlite_items::Items;
use std::alloc::{AllocError, Global};

/// The place of wires that no text has.
const NOWHERE: Place = Place {
    from: 0,
    to: 0,
    line: 0,
    col: 0,
};

/// Whether the first point comes before the other: free ends come first, by number, then the ports of each agent in turn, by place.
fn comes_before(one: Point, other: Point) -> bool
    ensures { IsTrue result ↔ ComesBefore one other }
{
    match (one, other) {
        (Point::Free(k), Point::Free(l)) => k < l,
        (Point::Free(_), Point::Port(..)) => true,
        (Point::Port(..), Point::Free(_)) => false,
        (Point::Port(x, i), Point::Port(y, j)) => x.0 < y.0 || x.0 == y.0 && i < j,
    }
}

/// Adds the wire of these two points, if it begins at the first one.
fn add_wire(wires: &mut Items<Wire>, one: Point, other: Point) -> Result<(), AllocError>
    ensures { OnOk result (AddsWire one other wires.old wires.new) }
{
    if comes_before(one, other) {
        wires.push(Wire {
            one,
            other,
            place: NOWHERE,
        })?;
    }
    Ok(())
}

/// The wires that begin at free ends with these partners.
fn wires_of_free(alloc: Global, ends: &[Point]) -> Result<Items<Wire>, AllocError>
    requires { length ends.now ≤ most_free }
    ensures { IfOk result (λ ws. (n : Parts) → AreEndsOf ends.now n.free → AreListed n (λ p. ComesBefore p (Free (length ends.now))) ws) }
{
    let mut wires = Items::new(alloc);
    for (number, end) in ends.iter().enumerate() {
        add_wire(&mut wires, Point::Free(number as u32), *end)?;
    }
    Ok(wires)
}

/// Adds the wires that begin at the ports of an agent.
fn add_wires(wires: &mut Items<Wire>, agent: AgentNo, ends: &[Point]) -> Result<(), AllocError>
    requires { length ends.now ≤ max_ports + 1 }
    ensures { OnOk result (AddsWires agent ends.now wires.old wires.new) }
{
    for (place, end) in ends.iter().enumerate() {
        add_wire(wires, Point::Port(agent, place as u8), *end)?;
    }
    Ok(())
}

/// The wires between these agents and free ends with these partners, by the first of their two points.
pub(crate) fn wires(
    alloc: Global,
    cells: &[Option<Cell>],
    ends: &[Point],
) -> Result<Items<Wire>, AllocError>
    requires ends { length ends.now ≤ most_free }
    requires cells { length cells.now < 2 ^ 32 }
    requires ports { HaveFewEnds cells.now }
    ensures { IfOk result (λ ws. (free : List FreeEnd) → AreEndsOf ends.now free → AreListed (unlisted cells.now free) (λ p. Unit {0}) ws) }
{
    let mut wires = wires_of_free(alloc, ends)?;
    for (number, cell) in cells.iter().enumerate() {
        if let Some(cell) = cell {
            add_wires(&mut wires, AgentNo(number as u32), cell.ends.as_slice())?;
        }
    }
    Ok(wires)
}
