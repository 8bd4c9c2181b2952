// Cells for a new net.
ghost use Rattle.std.specs.Prelude.{◌≡◌, ◌≤◌, IfOk};
ghost use Rattle.in_arena.specs.Arenas.{NoneLeased};
ghost use Rattle.in_reducer.specs.Inside.{AreTools};
ghost use Rattle.in_reducer.specs.Laying.{IsFresh};
ghost use Rattle.in_reducer.specs.Limiting.{AreAllowed};

use crate::body::{Body, OwnEnd};
use crate::limits::MOST_ENDS;
use crate::pair_queue::PairQueue;
use crate::tools::Tools;
use crate::wiring::POINTS;
use in_arena::{Arena, CellCounts, EndWord};
use in_check::Checked;
use in_compile::Placed;
use in_syntax::MOST_MEMBER_AGENTS;
use std::alloc::{AllocError, Global};

/// Cells without agents, the tools of interactions, and a queue with room for all pairs of agents in these cells and for those that an interaction
/// makes.
pub(crate) struct Fresh {
    pub(crate) arena: Arena,
    pub(crate) tools: Tools,
    pub(crate) queue: PairQueue,
}

// By hand, since an arena may be dropped only while none of its cells is on lease.
impl Drop for Fresh {
    fn drop(self)
        requires { NoneLeased self.arena }
    {
        let Fresh {
            arena: _,
            tools: _,
            queue: _,
        } = self;
    }
}

impl Fresh {
    /// The tools of a reducer of this program, once a net is in the cells, with these free ends and their other ends.
    pub(crate) fn into_body<'a>(
        self,
        checked: &'a Checked,
        free: Vec<OwnEnd>,
        ends: Vec<EndWord>,
    ) -> Body<'a>
        ensures { result ≡ record { checked = checked.entry; arena = self.arena; free = free; ends = ends; queue = self.queue; tools = self.tools } }
    {
        let Fresh {
            arena,
            tools,
            queue,
        } = self;
        Body {
            checked,
            arena,
            free,
            ends,
            queue,
            tools,
        }
    }
}

/// Tools of this arena.
fn tools_of(alloc: Global, arena: &Arena) -> Result<Tools, AllocError>
    ensures { IfOk result (λ x. AreTools x arena.now) }
{
    Ok(Tools {
        placed: Placed::empty(alloc, arena, MOST_MEMBER_AGENTS as u32)?,
        made: Vec::with_capacity(alloc, MOST_ENDS)?,
        points: vec![in alloc; EndWord::free(0); POINTS]?,
    })
}

/// That many cells of each class, with tools. Refused only when out of memory.
pub(crate) fn fresh_cells(alloc: Global, cells: CellCounts) -> Result<Fresh, AllocError>
    requires { AreAllowed cells }
    ensures { IfOk result (IsFresh cells) }
{
    let room = cells.all() as usize / 2 + MOST_ENDS;
    let queue = PairQueue::with_room(alloc, room)?;
    let arena = Arena::with_counts(alloc, cells)?;
    let tools = tools_of(alloc, &arena)?;
    Ok(Fresh {
        arena,
        tools,
        queue,
    })
}
