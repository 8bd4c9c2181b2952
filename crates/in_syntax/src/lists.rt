ghost use Rattle.std.specs.Prelude.{◌≡◌, [], IfOk};

use sqlite_items::Items;
use std::alloc::{AllocError, Global};

/// An empty list with room for so many items, for a list whose length is known: it takes no more memory than it needs, and is not moved while it
/// grows. Its only error is running out of memory.
pub fn with_room<T>(alloc: Global, room: usize) -> Result<Items<T>, AllocError>
    ensures { IfOk result (λ list. list ≡ []) }
{
    Ok(Items::from_vec(Vec::with_capacity(alloc, room)?))
}
