// A part is taken out of a net, and brought back.
ghost use Rattle.std.specs.Prelude.{◌≡◌, ◌≤◌, ◌+◌, ◌*◌, ℕ, true, length, MatchOption, IfSome, OnOk};
ghost use Rattle.in_arena.specs.declared.content.CellClass.{CellClass as Class};
ghost use Rattle.in_arena.specs.Classes.{classes};
ghost use Rattle.in_compile.specs.Cells.{agents_of, count_of};
ghost use Rattle.in_compile.specs.Templates.{AreTemplatesOf};
ghost use Rattle.in_phases.specs.Branches.{HavePlaces, IsBranch};
ghost use Rattle.in_phases.specs.Phases.{CanComeBack, HasFree, IsSplitBy, IsTakenOut};
ghost use Rattle.in_phases.specs.Rooms.{KeepsRoom};
ghost use Rattle.in_reducer.specs.Limiting.{most_cells};
ghost use Rattle.in_reducer.specs.Machines.{MachineParts};
ghost use Rattle.in_reducer.specs.Parting.{ReducesTo};

use crate::branch::Branch;
use crate::closing::is_closed;
use crate::cutting::{cut_off, join_up};
use crate::room::Room;
use in_base::use_promise;
use in_compile::Templates;
use in_reducer::{CellClass, CellIndex, MOST_CELLS, MOST_FREE_ENDS, Reducer, Seam};
use std::alloc::{AllocError, Global};

/// A part that was split off, and the seam at which it comes back; the number of cuts, and the number of its cells of each class.
#[derive(Drop)]
pub(crate) struct Taken<'a> {
    pub(crate) part: Reducer<'a>,
    pub(crate) seam: Seam,
    pub(crate) cuts: u32,
    pub(crate) cells: u32,
}

/// Splits off the branch, whose wires are cut, with room for it to come back. `None` if it can't be split off, and then the reducer is as it was.
fn split<'a>(
    alloc: Global,
    reducer: &mut Reducer<'a>,
    branch: &Branch,
    cuts: u32,
    share: u32,
    names: &mut [CellIndex],
) -> Option<Taken<'a>>
    requires branch { IsBranch reducer.old branch.now }
    requires cuts { cuts + cuts ≤ length reducer.old.free }
    requires share { share ≤ most_cells }
    ensures split { MatchOption result (reducer.new ≡ reducer.old) (λ t. (t.cuts ≡ cuts) × IsSplitBy reducer.old t.cuts t.cells t.seam t.part reducer.new) }
    ensures names { length names.new ≡ length names.old }
    ensures fits { IfSome result (λ t. length classes * t.cells ≤ length names.new) }
{
    let all = reducer.free_ends();
    let own = all - 2 * cuts;
    let cells = branch.agents.len() + share as usize;
    if cells > MOST_CELLS as usize
        || all > MOST_FREE_ENDS
        || !is_closed(reducer, branch, own, cuts)
    {
        return None;
    }
    if names.len() < reducer.bound() as usize || names.len() < CellClass::ALL.len() * cells {
        return None;
    }
    let cells = cells as u32;
    let Ok(seam) = Seam::new(alloc, all, cells) else {
        return None;
    };
    let agents = branch.agents.as_slice();
    let Ok(part) = reducer.split_off(alloc, agents, own, cuts, cells, names) else {
        return None;
    };
    use_promise!(reducer.pairs());
    use_promise!(part.pairs());
    Some(Taken {
        part,
        seam,
        cuts,
        cells,
    })
}

/// Glues a part on again, and joins the ends of the cuts: the net before it was taken out is reduced to the result by as many interactions as the
/// part and the rest did together.
pub(crate) fn bring_back(reducer: &mut Reducer, taken: Taken, names: &mut [CellIndex])
    requires names { length classes * taken.cells ≤ length names.old }
    requires back { (m : MachineParts) × (k : ℕ) × CanComeBack m k taken reducer.old }
    ensures reduces { (m : MachineParts) (k : ℕ) → CanComeBack m k taken.entry reducer.old → ReducesTo m k reducer.new }
    ensures vacant { (c : Class) → count_of reducer.new.vacant c + agents_of reducer.old.program.tables c taken.entry.part.agents ≡ count_of reducer.old.vacant c }
    ensures names { length names.new ≡ length names.old }
{
    let Taken {
        part,
        seam,
        cuts,
        cells: _,
    } = taken;
    reducer.glue_on(&part, seam, names);
    join_up(reducer, cuts);
}

/// Gathers the trees behind the first `pairs` pairs, while there are at most `most` agents. Refused only when out of memory.
fn gather(reducer: &Reducer, pairs: u32, most: u32, room: &mut Room) -> Result<(), AllocError>
    requires pairs { pairs ≤ length reducer.now.queue }
    ensures branch { OnOk result (IsBranch reducer.now room.new.branch) }
    ensures ports { OnOk result (HavePlaces reducer.now room.new.branch.ports.items) }
    ensures grown { KeepsRoom room.old room.new }
{
    room.reach(reducer.bound())?;
    room.branch.gather(reducer, pairs, most)
}

/// Makes room for the numbers that the gathered agents get in a part with `share` free cells of each class besides theirs. Refused only when out of
/// memory.
fn reach_names(reducer: &Reducer, share: u32, room: &mut Room) -> Result<(), AllocError>
    ensures branch { room.new.branch ≡ room.old.branch }
    ensures grown { KeepsRoom room.old room.new }
{
    let cells = room.branch.agents.len() + share as usize;
    let part = CellClass::ALL.len() * cells.min(MOST_CELLS as usize);
    room.reach_names(part.max(reducer.bound() as usize))
}

/// Takes the trees behind the first `pairs` pairs out of a net, as a part with `share` free cells of each class besides those of its agents. `floor`
/// cells of each class stay free in the rest, besides as many as the part has. `None` if they have more than `most` agents, or memory or cells run
/// out for that: then the net is as before, up to the numbers of its agents.
pub(crate) fn take_part<'a>(
    alloc: Global,
    reducer: &mut Reducer<'a>,
    templates: &Templates,
    pairs: u32,
    most: u32,
    share: u32,
    floor: u32,
    room: &mut Room,
) -> Option<Taken<'a>>
    requires templates { AreTemplatesOf reducer.old.program templates.now }
    requires pairs { pairs ≤ length reducer.old.queue }
    requires share { share ≤ most_cells }
    requires floor { HasFree reducer.old floor }
    ensures taken { MatchOption result (ReducesTo reducer.old 0 reducer.new × HasFree reducer.new floor) (λ t. IsTakenOut reducer.old t.cuts t.cells t.seam t.part reducer.new × HasFree reducer.new (floor + t.cells)) }
    ensures templates { AreTemplatesOf reducer.new.program templates.now }
    ensures part_templates { IfSome result (λ t. AreTemplatesOf t.part.program templates.now) }
    ensures room { KeepsRoom room.old room.new }
    ensures fits { IfSome result (λ t. length classes * t.cells ≤ length room.new.names.items) }
    ensures branch { IfSome result (λ _. IsBranch reducer.old room.new.branch) }
    ensures few { IfSome result (λ _. length room.new.branch.agents.items ≤ most) }
{
    use_promise!(reducer.pairs());
    let Ok(()) = gather(reducer, pairs, most, room) else {
        return None;
    };
    if room.branch.agents.len() > most as usize {
        return None;
    }
    let Ok(()) = reach_names(reducer, share, room) else {
        return None;
    };
    let cuts = cut_off(reducer, &room.branch);
    use_promise!(reducer.pairs());
    let names = room.names.as_mut_slice();
    let Some(taken) = split(alloc, reducer, &room.branch, cuts, share, names) else {
        join_up(reducer, cuts);
        return None;
    };
    if reducer.least_free() >= floor + taken.cells {
        return Some(taken);
    }
    bring_back(reducer, taken, room.names.as_mut_slice());
    None
}
