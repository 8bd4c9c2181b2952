//! The class graph of a whole open net, in few numbers: nodes that are near in the net are near in it.

ghost use Rattle.std.specs.Prelude.{◌<◌, length};

use crate::numbers::{NONE, Numbers, short};
use in_open_nets::{OpenPoint, Wired};
use std::alloc::{AllocError, Global};
use std::ops::Range;

/// An edge at a vertex, and its other end.
#[derive(Clone, Copy, Drop)]
pub(crate) struct Half {
    pub(crate) edge: u32,
    pub(crate) to: u32,
}

/// The vertices are a hub for each node, first, and one for each class with two ports or more. A class with one port has no vertex: its wire is
/// at the hub. The edges are the wires between vertices, and one from each class vertex to its hub.
pub(crate) struct ClassWires {
    /// The node of each hub.
    pub(crate) nodes: Numbers,
    /// The hub of each node.
    pub(crate) hubs: Numbers,
    /// The first class vertex of each hub, and the end.
    classes: Numbers,
    /// The hub of each class vertex.
    owners: Numbers,
    /// The two ends of each edge.
    ends: Vec<(u32, u32)>,
    /// The hubs that a wire joins to themselves.
    pub(crate) circles: Numbers,
    /// In how many pieces the net is.
    pieces: u32,
    /// The first half of each vertex, and the end.
    starts: Numbers,
    /// The edges at each vertex, in their order. The first one at a class vertex leads to its hub.
    pub(crate) halves: Vec<Half>,
}

// By hand, so that each drop is a call: a derived one is written out in each proof, at each way out.
impl Drop for ClassWires {
    fn drop(self) {
        let ClassWires {
            nodes: _,
            hubs: _,
            classes: _,
            owners: _,
            ends: _,
            circles: _,
            pieces: _,
            starts: _,
            halves: _,
        } = self;
    }
}

/// A walk over all nodes along the wires: the graph so far, the nodes that wait, and the vertex of each port of the nodes that it has been at.
struct Survey {
    graph: ClassWires,
    waiting: Numbers,
    firsts: Numbers,
    spots: Numbers,
    vertices: u32,
}

// By hand, so that each drop is a call: a derived one is written out in each proof, at each way out.
impl Drop for Survey {
    fn drop(self) {
        let Survey {
            graph: _,
            waiting: _,
            firsts: _,
            spots: _,
            vertices: _,
        } = self;
    }
}

/// Whether the port's class is that of the port before it. The ports of a class stand side by side.
fn follows(wired: &Wired, node: usize, port: usize) -> bool
    requires { node < length wired.now.nodes }
{
    0 < port && port < wired.ports(node) && wired.class(node, port) == wired.class(node, port - 1)
}

impl Survey {
    /// At no node yet.
    fn new(alloc: Global, count: usize) -> Result<Survey, AllocError> {
        let mut classes = Numbers::with_room(alloc, count.saturating_add(1))?;
        classes.push(short(count))?;
        Ok(Survey {
            graph: ClassWires {
                nodes: Numbers::with_room(alloc, count)?,
                hubs: Numbers::filled(alloc, count, NONE)?,
                classes,
                owners: Numbers::new(alloc),
                ends: Vec::with_capacity(alloc, count)?,
                circles: Numbers::new(alloc),
                pieces: 0,
                starts: Numbers::new(alloc),
                halves: Vec::new(alloc),
            },
            waiting: Numbers::new(alloc),
            firsts: Numbers::with_room(alloc, count)?,
            spots: Numbers::with_room(alloc, count.saturating_mul(2))?,
            vertices: short(count),
        })
    }

    /// An edge between these vertices. One at a class vertex alone is on no cycle with others.
    fn join(&mut self, one: u32, other: u32) -> Result<(), AllocError> {
        if one != other {
            self.graph.ends.push((one, other))?;
        } else if one < self.graph.hubs.len() {
            self.graph.circles.push(one)?;
        }
        Ok(())
    }

    /// The vertex of a port of the hub's node: a port of the class before it has that one's.
    fn vertex(
        &mut self,
        wired: &Wired,
        node: usize,
        port: usize,
        hub: u32,
    ) -> Result<u32, AllocError>
        requires { node < length wired.now.nodes }
    {
        if follows(wired, node, port) {
            return Ok(self.spots.at(self.spots.len().wrapping_sub(1)));
        }
        if !follows(wired, node, port.saturating_add(1)) {
            return Ok(hub);
        }
        let vertex = self.vertices;
        self.vertices = vertex.saturating_add(1);
        self.graph.owners.push(hub)?;
        self.join(hub, vertex)?;
        Ok(vertex)
    }

    /// Follows the wire from a vertex to a port: its edge is made where its other end has a vertex already, else its node waits.
    fn follow(&mut self, vertex: u32, point: OpenPoint) -> Result<(), AllocError> {
        match point {
            OpenPoint::Port(near, place) => {
                let hub = self.graph.hubs.at(near);
                if hub == NONE {
                    self.waiting.push(near)?;
                } else {
                    let first = self.firsts.at(hub);
                    let spot = self.spots.at(first.wrapping_add(place as u32));
                    if spot != NONE {
                        self.join(spot, vertex)?;
                    }
                }
            }
            OpenPoint::Free(_) => {}
        }
        Ok(())
    }

    /// The next hub is that of this node, if it has none yet.
    fn visit(&mut self, wired: &Wired, node: u32) -> Result<(), AllocError> {
        if (node as usize) < wired.nodes() && self.graph.hubs.at(node) == NONE {
            let hub = self.graph.nodes.len();
            self.graph.nodes.push(node)?;
            self.graph.hubs.put(node, hub);
            self.firsts.push(self.spots.len())?;
            for port in 0..wired.ports(node as usize) {
                let vertex = self.vertex(wired, node as usize, port, hub)?;
                let (_, point) = wired.partner(node as usize, port);
                self.follow(vertex, point)?;
                self.spots.push(vertex)?;
            }
            self.graph.classes.push(self.vertices)?;
        }
        Ok(())
    }

    /// All nodes that are joined to this one.
    fn piece(&mut self, wired: &Wired, node: u32) -> Result<(), AllocError> {
        if self.graph.hubs.at(node) == NONE {
            self.graph.pieces = self.graph.pieces.saturating_add(1);
            self.visit(wired, node)?;
            for step in 0..usize::MAX {
                let Some(next) = self.waiting.pop() else {
                    break;
                };
                self.visit(wired, next)?;
            }
        }
        Ok(())
    }

    /// The graph.
    fn into_graph(self) -> ClassWires {
        let Survey {
            graph,
            waiting: _,
            firsts: _,
            spots: _,
            vertices: _,
        } = self;
        graph
    }
}

impl ClassWires {
    /// The class graph of the whole open net, without its halves.
    pub(crate) fn of(alloc: Global, wired: &Wired) -> Result<ClassWires, AllocError> {
        let mut survey = Survey::new(alloc, wired.nodes())?;
        for node in 0..wired.nodes() {
            survey.piece(wired, short(node))?;
        }
        Ok(survey.into_graph())
    }

    /// How many hubs there are.
    pub(crate) fn hub_count(&self) -> u32 {
        self.hubs.len()
    }

    /// How many vertices there are.
    pub(crate) fn vertex_count(&self) -> u32 {
        self.hubs.len().saturating_add(self.owners.len())
    }

    /// How many edges there are.
    pub(crate) fn edge_count(&self) -> u32 {
        short(self.ends.len())
    }

    /// Whether no edge is on a cycle: each one joins two pieces.
    pub(crate) fn is_forest(&self) -> bool {
        self.edge_count().saturating_add(self.pieces) <= self.vertex_count()
    }

    /// Whether the vertex is a hub.
    #[inline(always)]
    pub(crate) fn is_hub(&self, vertex: u32) -> bool {
        vertex < self.hubs.len()
    }

    /// The hub of a vertex: itself, or that of the class.
    #[inline(always)]
    pub(crate) fn hub_of(&self, vertex: u32) -> u32 {
        if self.is_hub(vertex) {
            vertex
        } else {
            self.owners.at(vertex.wrapping_sub(self.hubs.len()))
        }
    }

    /// The two ends of an edge.
    #[inline(always)]
    pub(crate) fn ends_of(&self, edge: u32) -> (u32, u32) {
        match self.ends.get(edge as usize) {
            Some(ends) => *ends,
            None => (NONE, NONE),
        }
    }

    /// The half at a place.
    #[inline(always)]
    pub(crate) fn half(&self, place: u32) -> Half {
        match self.halves.get(place as usize) {
            Some(half) => *half,
            None => Half {
                edge: NONE,
                to: NONE,
            },
        }
    }

    /// The places of the halves of a vertex.
    #[inline(always)]
    pub(crate) fn halves_at(&self, vertex: u32) -> Range<u32> {
        self.starts.at(vertex)..self.starts.at(vertex.wrapping_add(1))
    }

    /// The places of the halves of a class vertex, except the one that leads to its hub.
    #[inline(always)]
    pub(crate) fn wires_at(&self, vertex: u32) -> Range<u32> {
        self.starts.at(vertex).saturating_add(1)..self.starts.at(vertex.wrapping_add(1))
    }

    /// The class vertices of a hub.
    #[inline(always)]
    pub(crate) fn classes_of(&self, hub: u32) -> Range<u32> {
        self.classes.at(hub)..self.classes.at(hub.wrapping_add(1))
    }

    /// All class vertices.
    #[inline(always)]
    pub(crate) fn class_vertices(&self) -> Range<u32> {
        self.hub_count()..self.vertex_count()
    }

    /// Puts a half before those that a vertex has already.
    fn put_half(&mut self, at: u32, half: Half) {
        let place = self.starts.lower(at);
        if let Some(old) = self.halves.get_mut(place as usize) {
            *old = half;
        }
    }

    /// Lists the edges at each vertex.
    pub(crate) fn list_halves(&mut self, alloc: Global) -> Result<(), AllocError> {
        let mut starts = Numbers::filled(
            alloc,
            (self.vertex_count() as usize).saturating_add(1),
            0,
        )?;
        for (one, other) in &self.ends {
            starts.raise(*one);
            starts.raise(*other);
        }
        let mut total = 0u32;
        for vertex in 0..starts.len() {
            total = total.saturating_add(starts.at(vertex));
            starts.put(vertex, total);
        }
        self.starts = starts;
        self.halves.resize(
            total as usize,
            Half {
                edge: NONE,
                to: NONE,
            },
        )?;
        for edge in (0..self.edge_count()).rev() {
            let (one, other) = self.ends_of(edge);
            self.put_half(one, Half { edge, to: other });
            self.put_half(other, Half { edge, to: one });
        }
        Ok(())
    }
}
