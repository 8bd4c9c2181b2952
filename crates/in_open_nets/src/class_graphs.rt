ghost use Rattle.std.specs.Prelude.{◌≡◌, ◌+◌, ◌<◌, ◌≤◌, ◌^◌, ◌↔◌, [], length, slice_index_or, false, OnOk, IsTrue, MatchOption, ℕ};
ghost use Rattle.in_open_nets.specs.ClassEdges.{AddsHubEdges, AreEdges, AreHubEdges, ComesFirst, HaveNumbers, IsEdgeOf, IsGraphOf, ListsNone, hub_edge_in, vertex_in};
ghost use Rattle.in_open_nets.specs.ClassGraphs.{Class};
ghost use Rattle.in_open_nets.specs.Constructions.{IsIn};
ghost use Rattle.in_open_nets.specs.OpenNets.{class_in};
ghost use Rattle.in_open_nets.specs.Members.{nodes_in};
ghost use Rattle.in_open_nets.specs.Stuck.{ports_of};

use crate::open_nets::OpenPoint;
use crate::parts::Part;
use crate::wired::Wired;
use in_base::use_promise;
use sqlite_items::Items;
use std::alloc::{AllocError, Global};

/// The number of a node's hub, which the numbers of its classes follow, and that of its first hub edge.
#[derive(Clone, Copy, Drop)]
pub struct HubNumbers {
    pub vertex: usize,
    pub edge: usize,
}

/// The class graph of some nodes: the numbers of each of them, how many vertices there are, and the edges, hub edges first. It is made once
/// for all parts, so that the numbers of other nodes are left from parts before.
#[derive(Drop)]
pub struct ClassGraph {
    pub hubs: Items<HubNumbers>,
    pub count: usize,
    pub edges: Items<(usize, usize)>,
}

/// An edge from a hub to each of `width` classes.
fn add_hub_edges(
    hub: usize,
    width: usize,
    edges: &mut Items<(usize, usize)>,
) -> Result<(), AllocError>
    requires { hub + width < 2 ^ 63 }
    ensures { OnOk result (AddsHubEdges hub width edges.old edges.new) }
{
    for class in 0..width {
        edges.push((hub, hub + 1 + class))?;
    }
    Ok(())
}

/// Whether the first of two ports comes first, or is the other one.
fn comes_first(node: usize, port: usize, other: usize, far: usize) -> bool
    ensures { IsTrue result ↔ ComesFirst node port other far }
{
    node < other || node == other && port <= far
}

impl ClassGraph {
    /// Of no nodes.
    pub fn new(alloc: Global) -> ClassGraph
        ensures hubs { result.hubs ≡ [] }
        ensures count { result.count ≡ 0 }
        ensures edges { result.edges ≡ [] }
    {
        ClassGraph {
            hubs: Items::new(alloc),
            count: 0,
            edges: Items::new(alloc),
        }
    }

    /// Numbers for that many nodes: it does something only the first time.
    fn make_room(&mut self, nodes: usize) -> Result<(), AllocError>
        ensures { OnOk result (nodes ≤ length self.new.hubs) }
    {
        let more = nodes.saturating_sub(self.hubs.len());
        for node in 0..more {
            self.hubs.push(HubNumbers { vertex: 0, edge: 0 })?;
        }
        Ok(())
    }

    /// The next node of the part, with its hub edges.
    fn add_node(&mut self, part: &Part, node: usize) -> Result<(), AllocError>
        requires node { node < length part.now.wired.now.nodes }
        requires here { IsIn node (nodes_in part.now.nodes.now) }
        requires numbers { HaveNumbers part.now.wired.now part.now.nodes.now node self.old.hubs self.old.count }
        requires edges { AreHubEdges part.now.wired.now part.now.nodes.now node self.old.hubs self.old.edges }
        ensures numbers { OnOk result (HaveNumbers part.now.wired.now part.now.nodes.now (node + 1) self.new.hubs self.new.count) }
        ensures edges { OnOk result (AreHubEdges part.now.wired.now part.now.nodes.now (node + 1) self.new.hubs self.new.edges) }
    {
        let hub = self.count;
        let numbers = HubNumbers {
            vertex: hub,
            edge: self.edges.len(),
        };
        self.hubs.set(node, numbers);
        let width = part.wired.width(node);
        add_hub_edges(hub, width, &mut self.edges)?;
        self.count = hub + 1 + width;
        Ok(())
    }

    /// The hubs and the hub edges of a part.
    fn list_hubs(&mut self, alloc: Global, part: &Part) -> Result<(), AllocError>
        ensures numbers { OnOk result (HaveNumbers part.now.wired.now part.now.nodes.now (length part.now.wired.now.nodes) self.new.hubs self.new.count) }
        ensures edges { OnOk result (AreHubEdges part.now.wired.now part.now.nodes.now (length part.now.wired.now.nodes) self.new.hubs self.new.edges) }
    {
        self.make_room(part.wired.nodes())?;
        self.count = 0;
        self.edges = Items::new(alloc);
        for member in part.nodes.members() {
            self.add_node(part, *member as usize)?;
        }
        Ok(())
    }

    /// The vertex of a port's class.
    fn class_vertex(&self, wired: &Wired, node: usize, port: usize) -> usize
        requires node { node < length wired.now.nodes }
        requires port { port < ports_of wired.now node }
        requires hubs { length wired.now.nodes ≤ length self.now.hubs }
        requires few { vertex_in self.now.hubs (Class node (class_in wired.now node port)) < 2 ^ 63 }
        ensures { result ≡ vertex_in self.now.hubs (Class node (class_in wired.now node port)) }
    {
        self.hubs.as_slice()[node].vertex + 1 + wired.class(node, port)
    }

    /// The edge of the wire at a port, if it leads to a node of the part. It is listed at its first point.
    fn port_edge(&self, part: &Part, node: usize, port: usize) -> Option<(usize, usize)>
        requires node { node < length part.now.wired.now.nodes }
        requires port { port < ports_of part.now.wired.now node }
        requires here { IsIn node (nodes_in part.now.nodes.now) }
        requires numbers { HaveNumbers part.now.wired.now part.now.nodes.now (length part.now.wired.now.nodes) self.now.hubs self.now.count }
        ensures { MatchOption result (ListsNone part.now.wired.now part.now.nodes.now node port) (IsEdgeOf part.now.wired.now part.now.nodes.now self.now.hubs node port) }
    {
        match part.wired.partner(node, port) {
            (_, OpenPoint::Port(near, place)) => {
                let other = near as usize;
                let far = place as usize;
                if comes_first(node, port, other, far) && part.nodes.has(other) {
                    Some((
                        self.class_vertex(part.wired, node, port),
                        self.class_vertex(part.wired, other, far),
                    ))
                } else {
                    None
                }
            }
            (_, OpenPoint::Free(_)) => None,
        }
    }

    /// The edges that are listed at the ports of a node of the part.
    fn add_edges(&mut self, part: &Part, node: usize) -> Result<(), AllocError>
        requires node { node < length part.now.wired.now.nodes }
        requires here { IsIn node (nodes_in part.now.nodes.now) }
        requires numbers { HaveNumbers part.now.wired.now part.now.nodes.now (length part.now.wired.now.nodes) self.old.hubs self.old.count }
        requires edges { AreEdges part.now.wired.now part.now.nodes.now node 0 self.old.hubs self.old.edges }
        ensures numbers { OnOk result (HaveNumbers part.now.wired.now part.now.nodes.now (length part.now.wired.now.nodes) self.new.hubs self.new.count) }
        ensures edges { OnOk result (AreEdges part.now.wired.now part.now.nodes.now (node + 1) 0 self.new.hubs self.new.edges) }
    {
        for port in 0..part.wired.ports(node) {
            if let Some(edge) = self.port_edge(part, node, port) {
                self.edges.push(edge)?;
            }
        }
        Ok(())
    }

    /// The class graph of a part.
    pub fn list(&mut self, alloc: Global, part: &Part) -> Result<(), AllocError>
        ensures { OnOk result (IsGraphOf part.now.wired.now part.now.nodes.now self.new) }
    {
        use_promise!(part.wired.nodes());
        self.list_hubs(alloc, part)?;
        for member in part.nodes.members() {
            self.add_edges(part, *member as usize)?;
        }
        Ok(())
    }

    /// Whether none of a node's hub edges is on a cycle.
    pub(crate) fn is_off_cycles(&self, cycles: &Items<bool>, node: usize, width: usize) -> bool
        requires node { node < length self.now.hubs }
        requires edges { (c : ℕ) → c < width → hub_edge_in self.now.hubs node c < length cycles.now }
        ensures { IsTrue result ↔ ((c : ℕ) → c < width → slice_index_or cycles.now (hub_edge_in self.now.hubs node c) false ≡ false) }
    {
        let first = self.hubs.as_slice()[node].edge;
        for class in 0..width {
            if cycles.as_slice()[first + class] {
                return false;
            }
        }
        true
    }
}
