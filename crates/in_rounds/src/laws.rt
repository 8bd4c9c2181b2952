//! Laws on gathered jobs and on rounds, for proofs above them. No function here does anything.

ghost use Rattle.in_rounds.specs.Laws.{LentArenasAreOne, PuttingLosesNone, PutsAreOne, ReturnsAreOne, RoundsAreSame, RoundsEnd, RoundsRunOn, TakingLosesNone, TakesAreOne};

/// After a `put` the kept results have the cells of the new one and of those that were kept before.
pub fn putting_loses_none()
    ensures { PuttingLosesNone }
{}

/// After a `take` the taken result and the kept ones together have the cells that were kept before.
pub fn taking_loses_none()
    ensures { TakingLosesNone }
{}

/// The kept results and the new one determine the result of `put` and the results kept after it.
pub fn puts_are_one()
    ensures { PutsAreOne }
{}

/// The kept results and the job determine the result of `take` and the results kept after it.
pub fn takes_are_one()
    ensures { TakesAreOne }
{}

/// Giving cells of bags back has one result: the arena, by the bags before and after. So `spend` has one.
pub fn returns_are_one()
    ensures { ReturnsAreOne }
{}

/// The arena and the bags that `gather_jobs` lends have one arena after it. Which cells are lent, and to which worker, is open.
pub fn lent_arenas_are_one()
    ensures { LentArenasAreOne }
{}

/// Taking the first pairs in turn, at least one, until there are no more jobs or no room for the next one, is a round.
pub fn rounds_end()
    ensures { RoundsEnd }
{}

/// Rounds of machines that are the same up to the numbers of their agents, with one budget, have one count, and leave machines that are the same again.
pub fn rounds_are_same()
    ensures { RoundsAreSame }
{}

/// A round after a run is a longer run, within its limit.
pub fn rounds_run_on()
    ensures { RoundsRunOn }
{}
