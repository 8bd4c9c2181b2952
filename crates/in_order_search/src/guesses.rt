//! A guess at when each node is taken out: a node goes when all of its edges on cycles but one lead to what is gone, the first one first; where
//! none does, the one that is nearest to those that split at once.

use crate::cycles::COVERS;
use crate::graphs::ClassWires;
use crate::least::Least;
use crate::numbers::{NONE, Numbers};
use std::alloc::{AllocError, Global};

/// Of the hubs: when each one goes, and those that go, in this order.
pub(crate) struct Guess {
    pub(crate) times: Numbers,
    pub(crate) gone: Numbers,
}

// By hand, so that each drop is a call: a derived one is written out in each proof, at each way out.
impl Drop for Guess {
    fn drop(self) {
        let Guess { times: _, gone: _ } = self;
    }
}

impl Guess {
    /// When the wires at a vertex go: those at a hub stay until their other ends go.
    #[inline(always)]
    pub(crate) fn time(&self, graph: &ClassWires, vertex: u32) -> u32 {
        if graph.is_hub(vertex) {
            NONE
        } else {
            self.times.at(graph.hub_of(vertex))
        }
    }
}

/// How many edges on cycles each hub has. A circle counts, and stays.
pub(crate) fn blocked(
    alloc: Global,
    graph: &ClassWires,
    states: &Numbers,
) -> Result<Numbers, AllocError> {
    let mut blocked = Numbers::filled(alloc, graph.hub_count() as usize, 0)?;
    for edge in 0..states.len() {
        if states.at(edge) == COVERS {
            let (one, other) = graph.ends_of(edge);
            blocked.raise(one);
            blocked.raise(other);
        }
    }
    for circle in 0..graph.circles.len() {
        blocked.raise(graph.circles.at(circle));
    }
    Ok(blocked)
}

/// The play: how many edges on cycles each hub has still, and each class vertex beside the one to its hub; the hubs from those that split
/// at once outwards, which of them are met, and which may go.
struct Peeling<'a> {
    graph: &'a ClassWires,
    states: &'a Numbers,
    left: Numbers,
    ports: Numbers,
    line: Numbers,
    met: Numbers,
    queued: Numbers,
    queue: Least,
    guess: Guess,
}

// By hand, so that each drop is a call: a derived one is written out in each proof, at each way out.
impl<'a> Drop for Peeling<'a> {
    fn drop(self) {
        let Peeling {
            graph: _,
            states: _,
            left: _,
            ports: _,
            line: _,
            met: _,
            queued: _,
            queue: _,
            guess: _,
        } = self;
    }
}

/// How many edges on cycles each class vertex has beside the one to its hub.
fn ports(alloc: Global, graph: &ClassWires, states: &Numbers) -> Result<Numbers, AllocError> {
    let mut ports = Numbers::with_room(alloc, graph.vertex_count() as usize)?;
    for vertex in graph.class_vertices() {
        let mut count = 0u32;
        for place in graph.wires_at(vertex) {
            if states.at(graph.half(place).edge) == COVERS {
                count = count.wrapping_add(1);
            }
        }
        ports.push(count)?;
    }
    Ok(ports)
}

impl<'a> Peeling<'a> {
    /// Nothing has gone yet.
    fn new(
        alloc: Global,
        graph: &'a ClassWires,
        states: &'a Numbers,
        blocked: &Numbers,
    ) -> Result<Peeling<'a>, AllocError> {
        let count = graph.hub_count();
        let mut left = Numbers::with_room(alloc, count as usize)?;
        for hub in 0..count {
            left.push(blocked.at(hub))?;
        }
        Ok(Peeling {
            graph,
            states,
            left,
            ports: ports(alloc, graph, states)?,
            line: Numbers::new(alloc),
            met: Numbers::filled(alloc, count as usize, 0)?,
            queued: Numbers::filled(alloc, count as usize, 0)?,
            queue: Least::new(alloc, count)?,
            guess: Guess {
                times: Numbers::filled(alloc, count as usize, NONE)?,
                gone: Numbers::new(alloc),
            },
        })
    }

    /// Whether a class vertex of the hub has an edge on a cycle beside the one to the hub.
    fn is_on_cycle(&self, hub: u32) -> bool {
        let mut found = false;
        for vertex in self.graph.classes_of(hub) {
            if self.ports.at(vertex.wrapping_sub(self.graph.hub_count())) > 0 {
                found = true;
            }
        }
        found
    }

    /// The hub may go.
    fn queue(&mut self, hub: u32) {
        if self.queued.at(hub) == 0 {
            self.queued.put(hub, 1);
            self.queue.put(self.graph.nodes.at(hub));
        }
    }

    /// The hub is met from those that split at once.
    fn meet(&mut self, hub: u32) -> Result<(), AllocError> {
        if self.met.at(hub) == 0 {
            self.met.put(hub, 1);
            self.line.push(hub)?;
        }
        Ok(())
    }

    /// The hubs that lie along wires on cycles from this vertex are met.
    fn spread(&mut self, vertex: u32) -> Result<(), AllocError> {
        for place in self.graph.halves_at(vertex) {
            let half = self.graph.half(place);
            if self.states.at(half.edge) == COVERS {
                self.meet(self.graph.hub_of(half.to))?;
            }
        }
        Ok(())
    }

    /// The hubs that split at once are met and may go, and all others are met from them.
    fn begin(&mut self, blocked: &Numbers) -> Result<(), AllocError> {
        for hub in 0..self.graph.hub_count() {
            if blocked.at(hub) == 0 && self.is_on_cycle(hub) {
                self.meet(hub)?;
                self.queue(hub);
            }
        }
        for place in 0..self.graph.hub_count() {
            let hub = self.line.at(place);
            if hub == NONE {
                break;
            }
            self.spread(hub)?;
            for vertex in self.graph.classes_of(hub) {
                self.spread(vertex)?;
            }
        }
        Ok(())
    }

    /// The other ends of the wires at this vertex have one less.
    fn lower(&mut self, vertex: u32) {
        for place in self.graph.halves_at(vertex) {
            let half = self.graph.half(place);
            let hub = self.graph.hub_of(half.to);
            if self.states.at(half.edge) == COVERS && self.queued.at(hub) == 0 {
                let is_last = self.graph.is_hub(half.to)
                    || self
                        .ports
                        .lower(half.to.wrapping_sub(self.graph.hub_count()))
                        == 0;
                if is_last && self.left.lower(hub) <= 1 {
                    self.queue(hub);
                }
            }
        }
    }

    /// The hub goes.
    fn go(&mut self, hub: u32) -> Result<(), AllocError> {
        self.guess.times.put(hub, self.guess.gone.len());
        self.guess.gone.push(hub)?;
        self.lower(hub);
        for vertex in self.graph.classes_of(hub) {
            self.lower(vertex);
        }
        Ok(())
    }

    /// All hubs that are met go.
    fn play(&mut self) -> Result<(), AllocError> {
        let mut nearest = 0u32;
        for step in 0..self.graph.hub_count().saturating_mul(2).saturating_add(1) {
            match self.queue.take() {
                Some(node) => self.go(self.graph.hubs.at(node))?,
                None => {
                    let hub = self.line.at(nearest);
                    if hub == NONE {
                        break;
                    }
                    self.queue(hub);
                    nearest = nearest.wrapping_add(1);
                }
            }
        }
        Ok(())
    }

    /// The guess.
    fn into_guess(self) -> Guess {
        let Peeling {
            graph: _,
            states: _,
            left: _,
            ports: _,
            line: _,
            met: _,
            queued: _,
            queue: _,
            guess,
        } = self;
        guess
    }
}

impl Guess {
    /// The guess.
    pub(crate) fn of(
        alloc: Global,
        graph: &ClassWires,
        states: &Numbers,
        blocked: &Numbers,
    ) -> Result<Guess, AllocError> {
        let mut peeling = Peeling::new(alloc, graph, states, blocked)?;
        peeling.begin(blocked)?;
        peeling.play()?;
        Ok(peeling.into_guess())
    }
}
