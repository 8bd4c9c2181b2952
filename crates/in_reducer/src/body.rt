// The parts of a reducer, also while cells of its arena are lent to the workers of a round.
use crate::pair_queue::PairQueue;
use crate::tools::Tools;
use in_arena::{Arena, EndWord};
use in_check::Checked;
use in_symbols::PortType;

/// A free end: the program's free end of this number, or an end of a wire that was cut, which has a type and no name.
#[derive(Clone, Copy)]
pub(crate) enum OwnEnd {
    Named(u32),
    Cut(PortType),
}

/// The parts of a reducer. `ends` has the partner of each free end at its number, and after them room for the sides of the boundary ends of a pair.
/// Cells of the arena may be on lease, so it has no invariant: the contract of each call has its own conditions.
pub struct Body<'a> {
    pub(crate) checked: &'a Checked,
    pub arena: Arena,
    pub(crate) free: Vec<OwnEnd>,
    pub(crate) ends: Vec<EndWord>,
    pub(crate) queue: PairQueue,
    pub(crate) tools: Tools,
}
