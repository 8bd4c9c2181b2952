use sqlite_items::Items;
use std::alloc::AllocError;

/// A step of a derivation. Steps, nodes and wires are named by their numbers, from 0 on. The steps are Lafont 1990's
/// constructions; that they name wires, and the step for a class node, is this project's own choice.
#[derive(Drop)]
pub enum Step {
    /// The empty net.
    Empty,
    /// A wire by itself.
    Link { wire: u32 },
    /// A class node.
    Given { node: u32 },
    /// An agent, with a step for each class of its auxiliary ports, in order.
    Graft { node: u32, classes: Items<u32> },
    /// Two steps joined along a wire.
    Cut { wire: u32, a: u32, b: u32 },
    /// Two steps side by side.
    Mix { a: u32, b: u32 },
}

/// Steps that build an open net; the last one builds all of it.
#[derive(Drop)]
pub struct Derivation {
    pub steps: Items<Step>,
}

/// The nodes of a sub-net, by number in rising order, which no node of it splits; so there is no derivation.
#[derive(Drop)]
pub struct Stuck {
    pub nodes: Items<u32>,
}

/// Why there is no derivation: a sub-net is stuck, or there was no memory.
#[derive(Drop)]
pub enum Undone {
    Stuck(Stuck),
    Memory(AllocError),
}

impl From<AllocError> for Undone {
    fn from(error: AllocError) -> Undone {
        Undone::Memory(error)
    }
}
