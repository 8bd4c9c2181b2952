ghost use Rattle.std.specs.Prelude.{◌≡◌, ◌+◌, ◌<◌, ◌++◌, true, length, map, option_to_list, None, IfOk, OnOk};
ghost use Rattle.in_symbols.specs.Tables.{FreeKnown};
ghost use Rattle.in_net.specs.Building.{point_of, IsSmall, AreSmallSpots, IsJoined, nth_spot, IsPointSpot, partner_of, ends_from, cells_of, free_ends_from, wire_of, wires_from};
ghost use Rattle.in_net.specs.Joining.{joined_spots};
ghost use Rattle.in_syntax.specs.TextLimits.{max_agents};
ghost use Rattle.in_net.specs.Reading.{reading_of};
ghost use Rattle.in_net.specs.Searching.{first_fault};
ghost use Rattle.in_net.specs.TextNet.{body_of};
ghost use Rattle.in_net.specs.Built.{closed_at, IsReadableNet, Builds, Assembles, IsReadFrom, ArePointsAt, AgentsOf, AreJoinedTo, AreListedOf};

use crate::faults::first_fault;
use crate::joining::{Link, join_all};
use crate::nets::{AgentNo, Cell, FreeEnd, Net, Point, Wire};
use crate::reading::{Agent, Reading, TextSpot, read_net};
use in_symbols::Symbols;
use in_syntax::{Code, Fault, Place, Refusal, Source, SourceFree, Text, with_room};
use sqlite_items::Items;
use std::alloc::{AllocError, Global};

/// The point of a spot; an occurrence has none.
fn point_of(spot: TextSpot) -> Option<Point>
    requires { IsSmall spot }
    ensures { result ≡ point_of spot }
{
    match spot {
        TextSpot::Port(agent, place, _) => Some(Point::Port(AgentNo(agent as u32), place)),
        TextSpot::Free(number, _) => Some(Point::Free(number as u32)),
        TextSpot::End(number) => Some(Point::Free(number as u32)),
        TextSpot::Occurrence(..) => None,
    }
}

/// The point that a spot is joined to. Once all is joined, no spot is joined to an occurrence.
pub(crate) fn partner(spots: &[TextSpot], links: &[Link], at: usize) -> Point
    requires at { at < length spots.now }
    requires point { IsPointSpot (nth_spot spots.now at) }
    requires joined { IsJoined spots.now links.now }
    requires small { AreSmallSpots spots.now }
    ensures { result ≡ partner_of spots.now links.now at }
{
    match point_of(spots[links[at].to]) {
        Some(point) => point,
        // Once all is joined, no spot is joined to an occurrence.
        None => unreachable!(),
    }
}

/// The agent with the partners of its places.
fn cell(
    alloc: Global,
    spots: &[TextSpot],
    links: &[Link],
    agent: &Agent,
    arity: u8,
) -> Result<Cell, AllocError>
    requires ports { ArePointsAt spots.now agent.now.first (arity + 1) }
    requires joined { IsJoined spots.now links.now }
    requires small { AreSmallSpots spots.now }
    ensures { IfOk result (λ c. (c.symbol ≡ agent.now.symbol) × (c.ends ≡ ends_from spots.now links.now agent.now.first (arity + 1))) }
{
    let mut ends = with_room(alloc, arity as usize + 1)?;
    for port in 0..=arity {
        ends.push(partner(spots, links, agent.first + port as usize))?;
    }
    Ok(Cell {
        symbol: agent.symbol,
        ends,
    })
}

/// The agents.
fn cells(
    alloc: Global,
    symbols: &Symbols,
    spots: &[TextSpot],
    links: &[Link],
    agents: &[Agent],
) -> Result<Items<Option<Cell>>, AllocError>
    requires agents { AgentsOf symbols.now spots.now agents.now }
    requires joined { IsJoined spots.now links.now }
    requires small { AreSmallSpots spots.now }
    ensures { IfOk result (λ cells. cells ≡ cells_of symbols.now spots.now links.now agents.now) }
{
    let mut cells = with_room(alloc, agents.len())?;
    for agent in agents {
        let arity = symbols.arity(agent.symbol);
        cells.push(Some(cell(alloc, spots, links, agent, arity)?))?;
    }
    Ok(cells)
}

/// The free ends, which are the first spots.
fn free_ends(
    alloc: Global,
    symbols: &Symbols,
    spots: &[TextSpot],
    links: &[Link],
    free: &[SourceFree],
) -> Result<Vec<FreeEnd>, AllocError>
    requires free { ArePointsAt spots.now 0 (length free.now) }
    requires known { FreeKnown symbols.now.types free.now }
    requires joined { IsJoined spots.now links.now }
    requires small { AreSmallSpots spots.now }
    ensures { IfOk result (λ ends. ends.items ≡ free_ends_from symbols.now spots.now links.now 0 free.now) }
{
    let mut ends = Vec::with_capacity(alloc, free.len())?;
    for (number, end) in free.iter().enumerate() {
        ends.push(FreeEnd {
            name: Text::from_str(alloc, end.name.text.as_str())?,
            kind: symbols.port_type(&end.port),
            end: partner(spots, links, number),
        })?;
    }
    Ok(ends)
}

/// The wire that begins at a spot, if the spot is joined to a later one.
fn wire_from(spots: &[TextSpot], links: &[Link], at: usize) -> Option<Wire>
    requires at { at < length spots.now }
    requires joined { IsJoined spots.now links.now }
    requires small { AreSmallSpots spots.now }
    ensures { result ≡ wire_of spots.now links.now at }
{
    let link = links[at];
    if link.to <= at {
        return None;
    }
    match point_of(spots[at]) {
        Some(one) => Some(Wire {
            one,
            other: partner(spots, links, at),
            place: link.place,
        }),
        // Once all is joined, an occurrence is joined to no later spot.
        None => unreachable!(),
    }
}

/// Adds the wire, if there is one.
fn add_wire(wires: &mut Vec<Wire>, wire: Option<Wire>) -> Result<(), AllocError>
    ensures { OnOk result (wires.new.items ≡ wires.old.items ++ option_to_list wire) }
{
    if let Some(wire) = wire {
        wires.push(wire)?;
    }
    Ok(())
}

/// The wires, in the order of their places.
fn wires(alloc: Global, spots: &[TextSpot], links: &[Link]) -> Result<Items<Wire>, AllocError>
    requires joined { IsJoined spots.now links.now }
    requires small { AreSmallSpots spots.now }
    ensures { IfOk result (AreListedOf (wires_from spots.now links.now 0 (length spots.now))) }
{
    // Each wire joins two spots; those of names are spots too, so this may be more than there are wires.
    let mut wires = Vec::with_capacity(alloc, spots.len() / 2)?;
    for at in 0..spots.len() {
        add_wire(&mut wires, wire_from(spots, links, at))?;
    }
    wires.sort_by_key(|wire| wire.place.from)?;
    Ok(Items::from_vec(wires))
}

/// The places of the agents' names.
fn places(alloc: Global, agents: &[Agent]) -> Result<Items<Place>, AllocError>
    ensures { IfOk result (λ places. places ≡ map (λ a. a.place) agents.now) }
{
    let mut places = with_room(alloc, agents.len())?;
    for agent in agents {
        places.push(agent.place)?;
    }
    Ok(places)
}

/// The net of a reading with its links and these free ends.
pub(crate) fn assemble(
    alloc: Global,
    symbols: &Symbols,
    reading: &Reading,
    links: &[Link],
    free: Vec<FreeEnd>,
) -> Result<Net, AllocError>
    requires read { IsReadFrom symbols.now (length free.items) reading.now }
    requires joined { IsJoined reading.now.spots links.now }
    requires free { AreJoinedTo reading.now.spots links.now free.items }
    ensures { IfOk result (Assembles symbols.now reading.now links.now free.items) }
{
    let spots = reading.spots.as_slice();
    let agents = reading.agents.as_slice();
    let cells = cells(alloc, symbols, spots, links, agents)?;
    let wires = wires(alloc, spots, links)?;
    let places = places(alloc, agents)?;
    Ok(Net::built(cells, free, wires, places))
}

/// The refusal of a net or a rule with a closed wire.
pub(crate) fn closed_at(place: Place) -> Fault
    ensures { result ≡ closed_at place }
{
    Fault::Refused(Refusal::at(Code::E09, place))
}

/// The net of a reading without faults, with its links.
fn linked_net(
    alloc: Global,
    source: &Source,
    symbols: &Symbols,
    reading: &Reading,
    links: &[Link],
) -> Result<Net, Fault>
    requires readable { IsReadableNet source.now symbols.now }
    requires read { reading.now ≡ reading_of symbols.now (body_of source.now.net) }
    requires clear { None ≡ first_fault (max_agents source.now.limits) symbols.now (body_of source.now.net) reading.now }
    requires links { links.now ≡ (joined_spots reading.now).links }
    requires whole { (joined_spots reading.now).closed ≡ None }
    ensures { Builds source.now symbols.now result }
{
    let spots = reading.spots.as_slice();
    let free = free_ends(alloc, symbols, spots, links, source.net.free.as_slice())?;
    Ok(assemble(alloc, symbols, reading, links, free)?)
}

/// The net of a reading whose agents and names have no fault.
fn joined_net(
    alloc: Global,
    source: &Source,
    symbols: &Symbols,
    reading: &Reading,
) -> Result<Net, Fault>
    requires readable { IsReadableNet source.now symbols.now }
    requires read { reading.now ≡ reading_of symbols.now (body_of source.now.net) }
    requires clear { None ≡ first_fault (max_agents source.now.limits) symbols.now (body_of source.now.net) reading.now }
    ensures { Builds source.now symbols.now result }
{
    let joined = join_all(alloc, reading)?;
    match joined.closed {
        Some(place) => Err(closed_at(place)),
        None => linked_net(alloc, source, symbols, reading, joined.links.as_slice()),
    }
}

/// The net of a reading.
fn net_of(
    alloc: Global,
    source: &Source,
    symbols: &Symbols,
    reading: &Reading,
) -> Result<Net, Fault>
    requires readable { IsReadableNet source.now symbols.now }
    requires read { reading.now ≡ reading_of symbols.now (body_of source.now.net) }
    ensures { Builds source.now symbols.now result }
{
    match first_fault(alloc, source.limits, symbols, &source.net, reading)? {
        Some(refusal) => Err(Fault::Refused(refusal)),
        None => joined_net(alloc, source, symbols, reading),
    }
}

/// The initial net of a program.
///
/// Refused for the first fault in the order of the text, at one place the lower code: E03 at the name of the agent that is one
/// more than its limits allow; E07 at an agent's name, where its number of arguments isn't its symbol's arity; E08 if a variable
/// doesn't occur twice or a free name once: at a variable's only occurrence or its third one, at the declaration of a free name
/// that doesn't occur, or at its second occurrence in the body. Only without these faults, E09 for a closed wire, the first by
/// the place of the wire. Or when out of memory. Lafont 1990 writes a net as equations between terms, in which each variable
/// occurs twice; the codes and their places are this project's own choice.
pub fn build_net(alloc: Global, source: &Source, symbols: &Symbols) -> Result<Net, Fault>
    requires { IsReadableNet source.now symbols.now }
    ensures { Builds source.now symbols.now result }
{
    let reading = read_net(alloc, symbols, &source.net)?;
    net_of(alloc, source, symbols, &reading)
}
