// A reducer of its program's initial net.
ghost use Rattle.std.specs.Prelude.{◌≡◌, ◌≤◌, ℕ, map, Some, IfOk, OnErr, slice_get};
ghost use Rattle.in_arena.specs.Classes.{amount};
ghost use Rattle.in_arena.specs.declared.content.CellClass.{CellClass as Class};
ghost use Rattle.in_arena.specs.Arenas.{free_of};
ghost use Rattle.in_check.specs.Programs.{Program};
ghost use Rattle.in_compile.specs.Cells.{agents_of, count_of, IsEnough};
ghost use Rattle.in_compile.specs.Templates.{AreTemplatesOf};
ghost use Rattle.in_reducer.specs.declared.body.OwnEnd.{OwnEnd as Own};
ghost use Rattle.in_reducer.specs.Inside.{IsOwnEnd, declared_as};
ghost use Rattle.in_reducer.specs.Laying.{CanLay, IsLaid};
ghost use Rattle.in_reducer.specs.Limiting.{AreAllowed};
ghost use Rattle.in_compile.specs.Putting.{IsPut};
ghost use Rattle.in_reducer.specs.Starts.{IsStart};

use crate::body::OwnEnd;
use crate::fresh::{Fresh, fresh_cells};
use crate::limits::MOST_ENDS;
use crate::queueing::queue_own;
use crate::reducer::Reducer;
use crate::sides::inner;
use in_arena::{Arena, CellCounts, EndWord};
use in_base::use_promise;
use in_check::Checked;
use in_compile::{Member, Placed, Templates};
use in_net::Net;
use std::alloc::{AllocError, Global};

/// Places the program's net in free cells of an arena. Refused only when out of memory, and then the arena is as it was.
fn place_start(alloc: Global, start: &Member, arena: &mut Arena) -> Result<Placed, AllocError>
    requires { IsEnough (count_of start.now.need) (free_of arena.old) }
    ensures put { IfOk result (λ p. IsPut start.now p.cells arena.old arena.new) }
    ensures refused { OnErr result (arena.new ≡ arena.old) }
{
    let mut placed = Placed::empty(alloc, arena, start.agents())?;
    placed.put(start, arena);
    Ok(placed)
}

/// The program's free ends.
fn free_ends(alloc: Global, net: &Net) -> Result<Vec<OwnEnd>, AllocError>
    ensures program { (p : Program) → p.net ≡ net.now → IfOk result (λ v. map (declared_as p) v.items ≡ p.net.free) }
    ensures each { (p : Program) → p.net ≡ net.now → IfOk result (λ v. (k : ℕ) (e : Own) → slice_get v.items k ≡ Some e → IsOwnEnd p e) }
{
    let own = net.free_ends();
    let mut free = Vec::with_capacity(alloc, own as usize)?;
    for number in 0..own {
        free.push_reserved(OwnEnd::Named(number));
    }
    Ok(free)
}

/// Lays the program's net in fresh cells, and queues its pairs. Returns the partners of its free ends, and after them room for the sides of boundary
/// ends. Refused only when out of memory, and then the arena is as it was.
fn lay(alloc: Global, start: &Member, fresh: &mut Fresh) -> Result<Vec<EndWord>, AllocError>
    requires { CanLay start.now fresh.old }
    ensures laid { IfOk result (λ es. IsLaid start.now fresh.old fresh.new es.items) }
    ensures refused { OnErr result (fresh.new.arena ≡ fresh.old.arena) }
{
    use_promise!(start.is_sound());
    let own = start.boundary_ends() as usize;
    let mut ends = vec![in alloc; EndWord::free(0); own + 2 * MOST_ENDS]?;
    let placed = place_start(alloc, start, &mut fresh.arena)?;
    for number in 0..own {
        ends[number] = inner(&placed, 0, start.joint(number as u16));
    }
    queue_own(start, &placed, &mut fresh.queue);
    Ok(ends)
}

impl<'a> Reducer<'a> {
    /// A reducer of the program's net with that many cells of each class. The net must fit: no class has more agents than cells.
    /// Its pairs are queued in the order of the places of their wires, which is this project's own choice, as are the sizes of cells. The
    /// templates are those of the program. Refused only when out of memory.
    pub fn new(
        alloc: Global,
        checked: &'a Checked,
        templates: &Templates,
        cells: CellCounts,
    ) -> Result<Reducer<'a>, AllocError>
        requires templates { AreTemplatesOf checked.now.program templates.now }
        requires cells { AreAllowed cells }
        requires fits { (c : Class) → agents_of checked.now.program.tables c checked.now.program.net.cells ≤ amount cells c }
        ensures { IfOk result (IsStart checked.now.program cells) }
    {
        use_promise!(checked.is_accepted());
        let free = free_ends(alloc, checked.net())?;
        let mut fresh = fresh_cells(alloc, cells)?;
        let ends = lay(alloc, templates.start(), &mut fresh)?;
        Ok(Reducer {
            body: fresh.into_body(checked, free, ends),
        })
    }
}
