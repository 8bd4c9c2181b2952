//! A circle through nodes of an open net.
use in_diagnosis_words::port;
use in_open_nets::{Node, OpenNet, OpenPoint};
use in_syntax::{MAX_PORTS, Source};
use std::alloc::{AllocError, Global};

/// The most ports of a node.
pub(crate) const MOST_PORTS: usize = MAX_PORTS + 1;

/// A port of a node.
pub(crate) type Port = (u32, u8);

/// The wires between ports of nodes, by port.
#[derive(Drop)]
pub(crate) struct Wires {
    ends: Vec<Option<Port>>,
}

/// The index of a port's other end in the list.
fn slot(port: Port) -> usize {
    let (node, place) = port;
    (node as usize)
        .saturating_mul(MOST_PORTS)
        .saturating_add(place as usize)
}

impl Wires {
    fn set(&mut self, from: Port, to: Port) {
        if let Some(end) = self.ends.get_mut(slot(from)) {
            *end = Some(to);
        }
    }

    /// The other end of the wire at a port, if there is such a port.
    pub(crate) fn end(&self, from: Port) -> Option<Port> {
        *self.ends.get(slot(from))?
    }

    /// The wires of an open net.
    pub(crate) fn of(alloc: Global, open: &OpenNet) -> Result<Wires, AllocError> {
        let count = (open.nodes() as usize).saturating_mul(MOST_PORTS);
        let mut wires = Wires {
            ends: vec![in alloc; None; count]?,
        };
        for number in 0..open.wires() {
            let (one, other) = open.wire(number);
            if let (OpenPoint::Port(a, p), OpenPoint::Port(b, q)) = (one, other) {
                wires.set((a, p), (b, q));
                wires.set((b, q), (a, p));
            }
        }
        Ok(wires)
    }
}

/// The class of a port: each port of a class node is a class by itself.
fn class_of(source: &Source, open: &OpenNet, at: Port) -> usize {
    let (node, place) = at;
    let number = place as usize;
    if node >= open.nodes() {
        return number;
    }
    match open.node(node) {
        Node::AgentNode(symbol) => match source.symbols.get(symbol.0 as usize) {
            Some(symbol) => port(symbol, number)
                .map(|(class, _)| class)
                .unwrap_or(number),
            None => number,
        },
        Node::ClassNode(..) => number,
    }
}

/// Two ports of a node that are of different classes, and the nodes of a way between them: from the first port to the second.
#[derive(Drop)]
pub(crate) struct Circle {
    pub(crate) first: u8,
    pub(crate) second: u8,
    pub(crate) way: Vec<u32>,
}

/// For each node, the node from which it was reached, itself for the first; `None` for nodes that weren't reached.
type Reached = Vec<Option<u32>>;

fn is_reached(reached: &Reached, node: u32) -> bool {
    matches!(reached.get(node as usize), Some(Some(_)))
}

fn reach(reached: &mut Reached, node: u32, from: u32) {
    if let Some(found) = reached.get_mut(node as usize) {
        *found = Some(from);
    }
}

/// Reaches the neighbours of a node in the part that aren't reached yet.
fn spread(
    wires: &Wires,
    part: &[bool],
    node: u32,
    reached: &mut Reached,
    pending: &mut Vec<u32>,
) -> Result<(), AllocError> {
    for place in 0..MOST_PORTS as u8 {
        if let Some((next, _)) = wires.end((node, place)) {
            let inside = matches!(part.get(next as usize), Some(true));
            if inside && !is_reached(reached, next) {
                reach(reached, next, node);
                pending.push(next)?;
            }
        }
    }
    Ok(())
}

/// Reaches all nodes of the part that are connected to this node within it.
fn spread_all(
    wires: &Wires,
    part: &[bool],
    first: u32,
    reached: &mut Reached,
    pending: &mut Vec<u32>,
) -> Result<(), AllocError> {
    reach(reached, first, first);
    pending.push(first)?;
    for index in 0..part.len() {
        match pending.get(index).copied() {
            Some(node) => spread(wires, part, node, reached, pending)?,
            None => break,
        }
    }
    Ok(())
}

/// The nodes of a part that are reached from one of them.
fn reached_from(
    alloc: Global,
    wires: &Wires,
    part: &[bool],
    first: u32,
) -> Result<Reached, AllocError> {
    let mut reached = vec![in alloc; None; part.len()]?;
    let mut pending = Vec::new(alloc);
    spread_all(wires, part, first, &mut reached, &mut pending)?;
    Ok(reached)
}

/// The way by which a node was reached, from the first node to it.
fn way_to(alloc: Global, reached: &Reached, last: u32) -> Result<Vec<u32>, AllocError> {
    let mut way = Vec::new(alloc);
    let mut node = last;
    for _step in 0..reached.len() {
        way.push(node)?;
        match reached.get(node as usize).copied() {
            Some(Some(from)) if from != node => node = from,
            _ => break,
        }
    }
    way.reverse();
    Ok(way)
}

/// The part of a net in which a circle is sought.
#[derive(Clone, Copy)]
pub(crate) struct Field<'a> {
    pub(crate) source: &'a Source,
    pub(crate) open: &'a OpenNet,
    pub(crate) wires: &'a Wires,
    pub(crate) part: &'a [bool],
}

impl Field<'_> {
    /// Whether a port is joined to this node.
    fn leads_to(&self, at: Port, to: u32) -> bool {
        matches!(self.wires.end(at), Some((node, _)) if node == to)
    }

    /// A port of the same node, of another class than this one, that is joined to the node `to`.
    fn leaving(&self, at: Port, to: u32) -> Option<u8> {
        let (node, _) = at;
        let class = class_of(self.source, self.open, at);
        for place in 0..MOST_PORTS as u8 {
            if self.leads_to((node, place), to)
                && class_of(self.source, self.open, (node, place)) != class
            {
                return Some(place);
            }
        }
        None
    }

    /// The ports by which a way from one node over a second one to a third one passes the second, if some are of different classes: the
    /// first and the third may be one node, to which two wires lead.
    pub(crate) fn passed(&self, from: u32, node: u32, to: u32) -> Option<(u8, u8)> {
        for first in 0..MOST_PORTS as u8 {
            if self.leads_to((node, first), from) {
                if let Some(second) = self.leaving((node, first), to) {
                    return Some((first, second));
                }
            }
        }
        None
    }

    /// A port of the node, of another class than this one, that is joined to the node itself or to a node that is reached.
    fn closing(&self, at: Port, reached: &Reached) -> Option<(u8, u32)> {
        let (node, _) = at;
        let class = class_of(self.source, self.open, at);
        for place in 0..MOST_PORTS as u8 {
            if class_of(self.source, self.open, (node, place)) != class {
                if let Some((next, _)) = self.wires.end((node, place)) {
                    if is_reached(reached, next) {
                        return Some((place, next));
                    }
                }
            }
        }
        None
    }

    /// The circle of a wire between this port and another one of its node, if they are of different classes.
    fn own_circle(&self, alloc: Global, at: Port, second: u8) -> Option<Circle> {
        let (node, first) = at;
        if class_of(self.source, self.open, (node, second))
            == class_of(self.source, self.open, at)
        {
            return None;
        }
        Some(Circle {
            first,
            second,
            way: Vec::new(alloc),
        })
    }

    /// A circle that leaves a node by this port and comes back from one of the nodes that are reached.
    fn closed_circle(
        &self,
        alloc: Global,
        at: Port,
        reached: &Reached,
    ) -> Result<Option<Circle>, AllocError> {
        let (_, first) = at;
        match self.closing(at, reached) {
            Some((second, last)) => {
                let way = way_to(alloc, reached, last)?;
                Ok(Some(Circle { first, second, way }))
            }
            None => Ok(None),
        }
    }

    /// A circle that leaves a node by this port to another node.
    fn circle_over(
        &self,
        alloc: Global,
        at: Port,
        next: u32,
    ) -> Result<Option<Circle>, AllocError> {
        if !matches!(self.part.get(next as usize), Some(true)) {
            return Ok(None);
        }
        let reached = reached_from(alloc, self.wires, self.part, next)?;
        self.closed_circle(alloc, at, &reached)
    }

    /// A circle that leaves a node by this port.
    fn circle_by(&self, alloc: Global, at: Port) -> Result<Option<Circle>, AllocError> {
        let (node, _) = at;
        match self.wires.end(at) {
            Some((next, place)) if next == node => Ok(self.own_circle(alloc, at, place)),
            Some((next, _)) => self.circle_over(alloc, at, next),
            None => Ok(None),
        }
    }

    /// A circle through a node that leaves it and comes back to it by ports of different classes; the node itself is not in the part.
    pub(crate) fn circle(&self, alloc: Global, node: u32) -> Result<Option<Circle>, AllocError> {
        for place in 0..MOST_PORTS as u8 {
            if let Some(circle) = self.circle_by(alloc, (node, place))? {
                return Ok(Some(circle));
            }
        }
        Ok(None)
    }
}
