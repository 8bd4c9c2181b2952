//! Which edges are on a cycle (Tarjan 1974): a search in depth notes how far up each vertex leads.

use crate::graphs::ClassWires;
use crate::numbers::{NONE, Numbers};
use std::alloc::{AllocError, Global};

/// An edge that is on no cycle.
pub(crate) const LOOSE: u32 = NONE;

/// An edge that is on a cycle, and not in the forest.
pub(crate) const COVERS: u32 = NONE - 1;

/// The search: when each vertex was met, the earliest one that leads back from it or from those below it, the edge by which it was met,
/// its next half, and what is known of the edges.
struct DepthSearch {
    turns: Numbers,
    lows: Numbers,
    ups: Numbers,
    nexts: Numbers,
    states: Numbers,
    turn: u32,
}

// By hand, so that each drop is a call: a derived one is written out in each proof, at each way out.
impl Drop for DepthSearch {
    fn drop(self) {
        let DepthSearch {
            turns: _,
            lows: _,
            ups: _,
            nexts: _,
            states: _,
            turn: _,
        } = self;
    }
}

impl DepthSearch {
    /// Nothing met yet, and no edge on a cycle.
    fn new(alloc: Global, graph: &ClassWires) -> Result<DepthSearch, AllocError> {
        let count = graph.vertex_count() as usize;
        Ok(DepthSearch {
            turns: Numbers::filled(alloc, count, NONE)?,
            lows: Numbers::filled(alloc, count, NONE)?,
            ups: Numbers::filled(alloc, count, NONE)?,
            nexts: Numbers::filled(alloc, count, NONE)?,
            states: Numbers::filled(alloc, graph.edge_count() as usize, LOOSE)?,
            turn: 0,
        })
    }

    /// The vertex is met by an edge.
    #[inline(always)]
    fn meet(&mut self, graph: &ClassWires, vertex: u32, edge: u32) {
        self.turns.put(vertex, self.turn);
        self.lows.put(vertex, self.turn);
        self.ups.put(vertex, edge);
        self.nexts.put(vertex, graph.halves_at(vertex).start);
        self.turn = self.turn.wrapping_add(1);
    }

    /// The vertex leads back as far as that turn.
    #[inline(always)]
    fn lead(&mut self, vertex: u32, turn: u32) {
        let low = self.lows.at(vertex).min(turn);
        self.lows.put(vertex, low);
    }

    /// Goes along a half of a vertex. Returns the vertex where the search goes on.
    #[inline(always)]
    fn go(&mut self, graph: &ClassWires, vertex: u32, half: u32) -> u32 {
        let half = graph.half(half);
        if half.edge == self.ups.at(vertex) {
            return vertex;
        }
        let turn = self.turns.at(half.to);
        if turn == NONE {
            self.meet(graph, half.to, half.edge);
            return half.to;
        }
        self.states.put(half.edge, COVERS);
        self.lead(vertex, turn);
        vertex
    }

    /// The vertex is done. Returns the one from which it was met.
    #[inline(always)]
    fn back(&mut self, graph: &ClassWires, vertex: u32) -> Option<u32> {
        let edge = self.ups.at(vertex);
        if edge == NONE {
            return None;
        }
        let (one, other) = graph.ends_of(edge);
        let up = if one == vertex { other } else { one };
        let low = self.lows.at(vertex);
        if low <= self.turns.at(up) {
            self.states.put(edge, COVERS);
        }
        self.lead(up, low);
        Some(up)
    }

    /// All that is joined to this vertex.
    fn search(&mut self, graph: &ClassWires, root: u32) {
        self.meet(graph, root, NONE);
        let mut at = root;
        for step in 0..graph.halves.len().saturating_add(self.turns.len() as usize) {
            let next = self.nexts.at(at);
            if next < graph.halves_at(at).end {
                self.nexts.put(at, next.wrapping_add(1));
                at = self.go(graph, at, next);
            } else {
                let Some(up) = self.back(graph, at) else {
                    break;
                };
                at = up;
            }
        }
    }

    /// What is known of the edges.
    fn into_states(self) -> Numbers {
        let DepthSearch {
            turns: _,
            lows: _,
            ups: _,
            nexts: _,
            states,
            turn: _,
        } = self;
        states
    }
}

/// Whether each edge is on a cycle (`COVERS`) or not (`LOOSE`).
pub(crate) fn on_cycles(alloc: Global, graph: &ClassWires) -> Result<Numbers, AllocError> {
    let mut search = DepthSearch::new(alloc, graph)?;
    for vertex in 0..graph.vertex_count() {
        if search.turns.at(vertex) == NONE {
            search.search(graph, vertex);
        }
    }
    Ok(search.into_states())
}
