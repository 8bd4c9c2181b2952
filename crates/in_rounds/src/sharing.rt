// The number of cells that each worker of a round is lent.
ghost use Rattle.std.specs.Prelude.{◌≤◌, ◌*◌};
ghost use Rattle.in_arena.specs.declared.content.CellClass.{CellClass as Class};
ghost use Rattle.in_compile.specs.Cells.{count_of};
ghost use Rattle.in_rounds.specs.Lending.{IsShare};

use in_compile::Need;

/// The number of cells that `jobs` jobs can need, at most `there`.
fn at_most(there: u32, largest: u32, jobs: u32) -> u32
    requires { 1 ≤ jobs }
    ensures most { result ≤ there }
    ensures once { largest ≤ there → largest ≤ result }
{
    let wanted = u64::from(largest) * u64::from(jobs);
    if wanted < u64::from(there) {
        wanted as u32
    } else {
        there
    }
}

/// The number of free cells that each of `workers` workers is lent: as many as `jobs` jobs can need, or its part of them; 0 if that is less than one
/// job can need. The sizes are this project's own choice.
pub(crate) fn share_of(free: Need, workers: u32, largest: Need, jobs: u32) -> Need
    requires some { 1 ≤ workers }
    requires jobs { 1 ≤ jobs }
    ensures share { IsShare workers result (count_of free) }
    ensures once { ((c : Class) → workers * count_of largest c ≤ count_of free c) → (c : Class) → count_of largest c ≤ count_of result c }
{
    let part = Need::by_class(|class| free.of(class) / workers);
    if largest.first_short(part).is_some() {
        return Need::each(0);
    }
    Need::by_class(|class| at_most(part.of(class), largest.of(class), jobs))
}
