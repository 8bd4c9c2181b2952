//! Numbers that lead to lower ones, and where they end.
ghost use Rattle.std.specs.Prelude.{◌≡◌, ◌<◌, ◌≤◌, length, IfOk, ℕ};
ghost use Rattle.in_simple_bridges.specs.Spans.{at};
ghost use Rattle.in_node_orders.specs.Heads.{AreFalling, LeadsToHead};

use sqlite_items::Items;
use std::alloc::{AllocError, Global};

/// `count` times the same number.
pub(crate) fn filled(alloc: Global, count: usize, number: usize) -> Result<Items<usize>, AllocError>
    ensures size { IfOk result (λ items. length items ≡ count) }
    ensures all { IfOk result (λ items. (n : ℕ) → n < count → at items n ≡ number) }
{
    let mut items = Vec::new(alloc);
    items.resize(count, number)?;
    Ok(Items::from_vec(items))
}

/// Each number below `count`, in its own place.
pub(crate) fn own_numbers(alloc: Global, count: usize) -> Result<Items<usize>, AllocError>
    ensures size { IfOk result (λ items. length items ≡ count) }
    ensures all { IfOk result (λ items. (n : ℕ) → n < count → at items n ≡ n) }
{
    let mut items = Items::new(alloc);
    for number in 0..count {
        items.push(number)?;
    }
    Ok(items)
}

/// The number at a place.
pub(crate) fn number_at(numbers: &Items<usize>, place: usize) -> usize
    requires { place < length numbers.now }
    ensures { result ≡ at numbers.now place }
{
    numbers.as_slice()[place]
}

/// The end of the way that leads from a number along its skips: the head, which is its own skip. The skips on the way get longer.
pub(crate) fn head(skips: &mut Items<usize>, from: usize) -> usize
    requires small { from < length skips.old }
    requires falling { AreFalling skips.old }
    ensures size { length skips.new ≡ length skips.old }
    ensures falling { AreFalling skips.new }
    ensures lower { result ≤ from }
    ensures leads { LeadsToHead skips.old skips.new from result }
{
    let mut number = from;
    while skips.as_slice()[number] < number {
        let above = skips.as_slice()[number];
        let far = skips.as_slice()[above];
        skips.set(number, far);
        number = far;
    }
    number
}
