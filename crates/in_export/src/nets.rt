ghost use Rattle.std.specs.Prelude.{◌≡◌, ◌<◌, ◌++◌, length, IfOk, OnOk, Some};
ghost use Rattle.in_net.specs.Parts.{symbol_in};
ghost use Rattle.in_export.specs.Json.{numbers_text};
ghost use Rattle.in_export.specs.Parts.{active_wires, agent_text, agents_text, free_end_text, free_ends_text, graph_text, is_principal, joins_principals, point_text, wire_text, wires_text};

use crate::json::{add_comma, add_key, add_name, add_number, add_numbers};
use crate::symbols::add_port_type;
use in_net::{AgentNo, Net, Point};
use std::alloc::{AllocError, Global};

/// Adds a point: an agent's port as its number and place, a free end as its number.
fn add_point(bytes: &mut Vec<u8>, alloc: Global, point: Point) -> Result<(), AllocError>
    ensures { OnOk result (bytes.new.items ≡ bytes.old.items ++ point_text point) }
{
    bytes.push(b'[')?;
    match point {
        Point::Port(agent, place) => {
            add_number(bytes, alloc, agent.0)?;
            bytes.push(b',')?;
            add_number(bytes, alloc, place as u32)?;
        }
        Point::Free(number) => add_number(bytes, alloc, number)?,
    }
    bytes.push(b']')?;
    Ok(())
}

/// Adds the two points of a wire.
fn add_wire(bytes: &mut Vec<u8>, alloc: Global, points: (Point, Point)) -> Result<(), AllocError>
    ensures { OnOk result (bytes.new.items ≡ bytes.old.items ++ wire_text (Some points)) }
{
    let (one, other) = points;
    bytes.push(b'[')?;
    add_point(bytes, alloc, one)?;
    bytes.push(b',')?;
    add_point(bytes, alloc, other)?;
    bytes.push(b']')?;
    Ok(())
}

/// Adds the wires, as an array.
fn add_wires(bytes: &mut Vec<u8>, alloc: Global, net: &Net) -> Result<(), AllocError>
    ensures { OnOk result (bytes.new.items ≡ bytes.old.items ++ wires_text net.now) }
{
    bytes.push(b'[')?;
    for number in 0..net.wires() {
        add_comma(bytes, number as usize)?;
        add_wire(bytes, alloc, net.wire(number))?;
    }
    bytes.push(b']')?;
    Ok(())
}

/// Adds the number of an agent's symbol.
fn add_agent(
    bytes: &mut Vec<u8>,
    alloc: Global,
    net: &Net,
    agent: AgentNo,
) -> Result<(), AllocError>
    ensures { OnOk result (bytes.new.items ≡ bytes.old.items ++ agent_text (symbol_in net.now agent.0)) }
{
    match net.symbol(agent) {
        Some(symbol) => add_number(bytes, alloc, symbol.0),
        None => bytes.extend_from_slice(b"null"),
    }
}

/// Adds the symbols of the agents, as an array.
fn add_agents(bytes: &mut Vec<u8>, alloc: Global, net: &Net) -> Result<(), AllocError>
    ensures { OnOk result (bytes.new.items ≡ bytes.old.items ++ agents_text net.now) }
{
    bytes.push(b'[')?;
    for number in 0..net.cells().len() {
        add_comma(bytes, number)?;
        add_agent(bytes, alloc, net, AgentNo(number as u32))?;
    }
    bytes.push(b']')?;
    Ok(())
}

/// Whether this is a principal port.
fn is_principal(point: Point) -> bool
    ensures { result ≡ is_principal point }
{
    match point {
        Point::Port(_, place) => place == 0,
        Point::Free(_) => false,
    }
}

/// Whether a wire joins two principal ports.
fn is_active(points: (Point, Point)) -> bool
    ensures { result ≡ joins_principals (Some points) }
{
    let (one, other) = points;
    is_principal(one) && is_principal(other)
}

/// The numbers of the wires that join two principal ports, in rising order.
fn active_wires(alloc: Global, net: &Net) -> Result<Vec<u32>, AllocError>
    ensures { IfOk result (λ active. active.items ≡ active_wires net.now) }
{
    let mut active = Vec::new(alloc);
    for number in 0..net.wires() {
        if is_active(net.wire(number)) {
            active.push(number)?;
        }
    }
    Ok(active)
}

/// Adds the numbers of the active wires, as an array.
fn add_active(bytes: &mut Vec<u8>, alloc: Global, net: &Net) -> Result<(), AllocError>
    ensures { OnOk result (bytes.new.items ≡ bytes.old.items ++ numbers_text (active_wires net.now)) }
{
    let active = active_wires(alloc, net)?;
    add_numbers(bytes, alloc, active.as_slice())?;
    Ok(())
}

/// Adds the agents, the wires and the active pairs, as three members.
pub fn add_graph(bytes: &mut Vec<u8>, alloc: Global, net: &Net) -> Result<(), AllocError>
    ensures { OnOk result (bytes.new.items ≡ bytes.old.items ++ graph_text net.now) }
{
    add_key(bytes, "agents")?;
    add_agents(bytes, alloc, net)?;
    bytes.push(b',')?;
    add_key(bytes, "wires")?;
    add_wires(bytes, alloc, net)?;
    bytes.push(b',')?;
    add_key(bytes, "active")?;
    add_active(bytes, alloc, net)
}

/// Adds a free end: its name, and its declared type.
fn add_free_end(
    bytes: &mut Vec<u8>,
    alloc: Global,
    net: &Net,
    number: u32,
) -> Result<(), AllocError>
    requires { number < length net.now.free }
    ensures { OnOk result (bytes.new.items ≡ bytes.old.items ++ free_end_text net.now number) }
{
    bytes.push(b'{')?;
    add_key(bytes, "name")?;
    add_name(bytes, net.free_name(number))?;
    bytes.push(b',')?;
    add_port_type(bytes, alloc, net.free_type(number))?;
    bytes.push(b'}')?;
    Ok(())
}

/// Adds the free ends, as an array.
pub fn add_free_ends(bytes: &mut Vec<u8>, alloc: Global, net: &Net) -> Result<(), AllocError>
    ensures { OnOk result (bytes.new.items ≡ bytes.old.items ++ free_ends_text net.now) }
{
    bytes.push(b'[')?;
    for number in 0..net.free_ends() {
        add_comma(bytes, number as usize)?;
        add_free_end(bytes, alloc, net, number)?;
    }
    bytes.push(b']')?;
    Ok(())
}
