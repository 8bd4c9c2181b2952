// Lists that each interaction reuses.

use in_arena::EndWord;
use in_compile::Placed;

/// A list of placed cells, which has no cell between two interactions; a list for new pairs, which is empty then; and the points of a right member:
/// 32 for boundary ends, and after them one for each agent. All room is taken once, so that no interaction takes memory.
#[derive(Drop)]
pub(crate) struct Tools {
    pub(crate) placed: Placed,
    pub(crate) made: Vec<(u32, u32)>,
    pub(crate) points: Vec<EndWord>,
}
