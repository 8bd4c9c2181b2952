// The wires that lead out of a part are cut, and cuts are undone.
ghost use Rattle.std.specs.Prelude.{◌≡◌, ◌<◌, ◌≤◌, ◌+◌, ℕ, true};
ghost use Rattle.in_phases.specs.Branches.{AgentHasPlace, HavePlaces, IsBranch};
ghost use Rattle.in_reducer.specs.Cutting.{CanCut};
ghost use Rattle.in_reducer.specs.Machines.{MachineParts};
ghost use Rattle.in_reducer.specs.Parting.{ReducesTo};
ghost use Rattle.in_reducer.specs.PartingLaws.{IsCutTimes};
ghost use Rattle.in_reducer.specs.Reducers.{IsReducer};

use crate::branch::{Branch, OpenPort};
use in_base::use_promise;
use in_reducer::{CellNo, End, MOST_FREE_ENDS, Reducer};

/// Whether the wire at this place of an agent leads out of the branch. The wire of an active pair doesn't count: the branch has both of its agents
/// or neither.
fn leads_out(reducer: &Reducer, branch: &Branch, cell: CellNo, place: u8) -> bool
    requires branch { IsBranch reducer.now branch.now }
    requires there { AgentHasPlace reducer.now cell.0 place }
    ensures { result ≡ true → CanCut reducer.now cell.0 place }
{
    use_promise!(reducer.pairs());
    match reducer.partner(End::Cell(cell, place)) {
        End::Cell(other, at) => !branch.has(other) && (place != 0 || at != 0),
        End::Free(_) => true,
    }
}

/// Cuts the wire at this place of an agent, if it leads out of the branch. Returns the number of cuts: 0 if memory or numbers of free ends run out.
fn cut_place(reducer: &mut Reducer, branch: &Branch, cell: CellNo, place: u8) -> u32
    requires branch { IsBranch reducer.old branch.now }
    requires there { AgentHasPlace reducer.old cell.0 place }
    ensures cuts { IsCutTimes reducer.old result reducer.new }
    ensures few { result ≤ 1 }
{
    use_promise!(reducer.pairs());
    if !leads_out(reducer, branch, cell, place) || reducer.free_ends() > MOST_FREE_ENDS - 2 {
        return 0;
    }
    match reducer.cut(cell, place) {
        Ok(()) => 1,
        Err(_) => 0,
    }
}

/// Cuts those wires at the open ports of the branch that lead out of it, and returns their number. If memory or numbers of free ends run out, some are
/// left.
pub(crate) fn cut_off(reducer: &mut Reducer, branch: &Branch) -> u32
    requires branch { IsBranch reducer.old branch.now }
    requires ports { HavePlaces reducer.old branch.now.ports.items }
    ensures cuts { IsCutTimes reducer.old result reducer.new }
{
    let mut cuts = 0;
    use_promise!(reducer.pairs());
    for number in 0..branch.ports.len() {
        let OpenPort { cell, place } = branch.ports[number];
        use_promise!(reducer.pairs());
        let more = cut_place(reducer, branch, cell, place);
        use_promise!(reducer.free_ends());
        cuts += more;
    }
    cuts
}

/// Joins the ends of `cuts` cuts again, the last one first: the net before the cuts is reduced to the result by as many interactions as were done
/// since.
pub(crate) fn join_up(reducer: &mut Reducer, cuts: u32)
    requires cut { (m : MachineParts) × (cut : MachineParts) × (k : ℕ) × IsReducer m × IsCutTimes m cuts cut × ReducesTo cut k reducer.old }
    ensures reduces { (m cut : MachineParts) (k : ℕ) → IsReducer m → IsCutTimes m cuts cut → ReducesTo cut k reducer.old → ReducesTo m k reducer.new }
    ensures vacant { reducer.new.vacant ≡ reducer.old.vacant }
{
    for _undone in 0..cuts {
        reducer.join_last();
    }
}
