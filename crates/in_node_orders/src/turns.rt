//! The turn of each node in an order.
ghost use Rattle.std.specs.Prelude.{IfOk, MatchOption};
ghost use Rattle.in_node_orders.specs.Turns.{AreDistinct, AreTurns};

use crate::heads::filled;
use sqlite_items::Items;
use std::alloc::{AllocError, Global};

/// The turn of each of `count` nodes: its index in the order, or the length of the order if it isn't there. `None` exactly if a number is too
/// high, or stands twice. Fails if memory runs out.
pub fn turns_of(
    alloc: Global,
    count: usize,
    nodes: &Items<u32>,
) -> Result<Option<Items<usize>>, AllocError>
    ensures { IfOk result (λ found. MatchOption found (AreDistinct count nodes.now → ⊥) (AreTurns count nodes.now)) }
{
    let last = nodes.len();
    let mut turns = filled(alloc, count, last)?;
    for turn in 0..last {
        let node = nodes.as_slice()[turn] as usize;
        if node >= count || turns.as_slice()[node] != last {
            return Ok(None);
        }
        turns.set(node, turn);
    }
    Ok(Some(turns))
}
