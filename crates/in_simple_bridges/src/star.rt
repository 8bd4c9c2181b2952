ghost use Rattle.std.specs.Prelude.{◌≡◌, ◌<◌, length, IfOk, OnOk, ℕ};
ghost use Rattle.in_simple_bridges.specs.Spans.{AreWithin, at};
ghost use Rattle.in_simple_bridges.specs.Stars.{IsLinked, IsStar};

use sqlite_items::Items;
use std::alloc::{AllocError, Global};

/// The edges at each vertex. A vertex has the number of its last link, counted from 1, and a link that of the one before it; 0 ends.
#[derive(Drop)]
pub(crate) struct Star {
    pub(crate) heads: Items<usize>,
    pub(crate) links: Items<(usize, usize)>,
}

/// `count` zeros.
pub(crate) fn zeros(alloc: Global, count: usize) -> Result<Items<usize>, AllocError>
    ensures size { IfOk result (λ zeros. length zeros ≡ count) }
    ensures zero { IfOk result (λ zeros. (n : ℕ) → at zeros n ≡ 0) }
{
    let mut items = Vec::new(alloc);
    items.resize(count, 0)?;
    Ok(Items::from_vec(items))
}

impl Star {
    /// One more link of the vertex, to an edge.
    fn link(&mut self, vertex: usize, edge: usize) -> Result<(), AllocError>
        requires { vertex < length self.old.heads }
        ensures { OnOk result (IsLinked vertex edge self.old.heads self.old.links self.new.heads self.new.links) }
    {
        self.links.push((edge, self.heads.as_slice()[vertex]))?;
        self.heads.set(vertex, self.links.len());
        Ok(())
    }

    /// The links of all edges.
    pub(crate) fn of(
        alloc: Global,
        count: usize,
        edges: &Items<(usize, usize)>,
    ) -> Result<Star, AllocError>
        requires { AreWithin count edges.now }
        ensures { IfOk result (λ star. IsStar count edges.now star.heads star.links) }
    {
        let mut star = Star {
            heads: zeros(alloc, count)?,
            links: Items::new(alloc),
        };
        for edge in 0..edges.len() {
            let (one, other) = edges.as_slice()[edge];
            star.link(one, edge)?;
            star.link(other, edge)?;
        }
        Ok(star)
    }
}
