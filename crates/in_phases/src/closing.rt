// Whether a branch can be split off.
ghost use Rattle.std.specs.Prelude.{◌≡◌, ◌<◌, ◌≤◌, ◌+◌, ℕ, true, length, Some, slice_get};
ghost use Rattle.in_arena.specs.declared.content.CellNo.{CellNo as Number};
ghost use Rattle.in_net.specs.Nets.{Point, Port, Free};
ghost use Rattle.in_phases.specs.Branches.{HasAgent, IsBranch, LeadsSomewhere};
ghost use Rattle.in_reducer.specs.Cutting.{net_in};
ghost use Rattle.in_reducer.specs.Parting.{CanSplit, IsInPart};
ghost use Rattle.in_cells.specs.Shown.{point_of};

use crate::branch::Branch;
use in_base::{use_invariant, use_promise};
use in_reducer::{CellNo, End, Reducer};

/// Whether this is the number of the first end of one of `cuts` cuts, which came after `own` free ends.
fn is_first_end(own: u32, cuts: u32, number: u32) -> bool
    ensures { result ≡ true → (j : ℕ) × (j < cuts) × (number ≡ own + (j + j)) }
{
    if number < own {
        return false;
    }
    let after = number - own;
    let cut = after / 2;
    after == 2 * cut && cut < cuts
}

/// Whether an end leads to an agent of the branch, or to the first end of one of `cuts` cuts, which came after `own` free ends.
fn is_inside(reducer: &Reducer, branch: &Branch, own: u32, cuts: u32, end: End) -> bool
    requires branch { IsBranch reducer.now branch.now }
    requires there { LeadsSomewhere reducer.now end }
    ensures { result ≡ true → IsInPart branch.now.agents.items own cuts (point_of end) }
{
    use_invariant!(*reducer);
    match end {
        End::Cell(cell, _) => branch.has(cell),
        End::Free(number) => is_first_end(own, cuts, number),
    }
}

/// Whether all places of an agent lead inside.
fn is_agent_closed(reducer: &Reducer, branch: &Branch, own: u32, cuts: u32, cell: CellNo) -> bool
    requires branch { IsBranch reducer.now branch.now }
    requires there { HasAgent reducer.now cell.0 }
    ensures { result ≡ true → (i : ℕ) (q : Point ℕ) → (net_in reducer.now).partner (Port cell.0 i) ≡ Some q → IsInPart branch.now.agents.items own cuts q }
{
    use_promise!(reducer.pairs());
    for place in 0..u32::from(reducer.arity(cell)) + 1 {
        let end = reducer.partner(End::Cell(cell, place as u8));
        if !is_inside(reducer, branch, own, cuts, end) {
            return false;
        }
    }
    true
}

/// Whether all places of the branch's agents lead inside.
fn are_agents_closed(reducer: &Reducer, branch: &Branch, own: u32, cuts: u32) -> bool
    requires branch { IsBranch reducer.now branch.now }
    ensures { result ≡ true → (k i : ℕ) (c : Number) (q : Point ℕ) → slice_get branch.now.agents.items k ≡ Some c → (net_in reducer.now).partner (Port c.0 i) ≡ Some q → IsInPart branch.now.agents.items own cuts q }
{
    for number in 0..branch.agents.len() {
        if !is_agent_closed(reducer, branch, own, cuts, branch.agents[number]) {
            return false;
        }
    }
    true
}

/// Whether the first ends of all cuts lead inside.
fn are_ends_closed(reducer: &Reducer, branch: &Branch, own: u32, cuts: u32) -> bool
    requires branch { IsBranch reducer.now branch.now }
    requires many { length reducer.now.free ≡ own + (cuts + cuts) }
    ensures { result ≡ true → (j : ℕ) (q : Point ℕ) → j < cuts → (net_in reducer.now).partner (Free (own + (j + j))) ≡ Some q → IsInPart branch.now.agents.items own cuts q }
{
    use_promise!(reducer.pairs());
    use_promise!(reducer.free_ends());
    for cut in 0..cuts {
        let end = reducer.partner(End::Free(own + 2 * cut));
        if !is_inside(reducer, branch, own, cuts, end) {
            return false;
        }
    }
    true
}

/// Whether the branch's agents and the first ends of the cuts lead only to each other, so that they can be split off.
pub(crate) fn is_closed(reducer: &Reducer, branch: &Branch, own: u32, cuts: u32) -> bool
    requires branch { IsBranch reducer.now branch.now }
    requires many { length reducer.now.free ≡ own + (cuts + cuts) }
    ensures { result ≡ true → CanSplit reducer.now branch.now.agents.items own cuts }
{
    are_agents_closed(reducer, branch, own, cuts) && are_ends_closed(reducer, branch, own, cuts)
}
