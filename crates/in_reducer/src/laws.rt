//! Laws on reducers, for proofs above them. No function here does anything.

ghost use Rattle.in_reducer.specs.Cutting.{JointsUndoCuts};
ghost use Rattle.in_reducer.specs.Lent.{SettledLeasesAreOne};
ghost use Rattle.in_reducer.specs.Laws.{ReducersAsPromised, StepsKeepReducers, StartsAreReducers};
ghost use Rattle.in_reducer.specs.PartingLaws.{CutsAreUndone, GluingsAreAlike, PartsReduceTheWhole, ReductionsGoOn, SplitsAreAlike, StaysReduce, StepsReduce};
ghost use Rattle.in_reducer.specs.ResultLaws.{CutsAreOne, FirstStepsAreOne, HeadsAreOne, JointsAreOne, NeedsAreOne};

/// The net that a reducer shows is as promised. It is typed, has one rule for each active pair, and has no crossing circle and no vicious one. Each
/// interaction ends. Each agent leads on. The net is written whole.
pub fn reducers_as_promised()
    ensures { ReducersAsPromised }
{}

/// An interaction of a reducer leaves a reducer, and makes a run one interaction longer, under any numbers of the new agents.
pub fn steps_keep_reducers()
    ensures { StepsKeepReducers }
{}

/// A start of an accepted program is a reducer: the laws on reducers hold of it.
pub fn starts_are_reducers()
    ensures { StartsAreReducers }
{}

/// If a wire was cut, and only interactions were done since, the two ends can be joined again, and the net before the cut leads to the joined net, by
/// as many interactions: so `join_last` may be called, and the count stays right.
pub fn joints_undo_cuts()
    ensures { JointsUndoCuts }
{}

/// A net is reduced to itself by 0 interactions.
pub fn stays_reduce()
    ensures { StaysReduce }
{}

/// An interaction of a reducer reduces its net by one.
pub fn steps_reduce()
    ensures { StepsReduce }
{}

/// A net that is reduced twice is reduced by the sum of both counts.
pub fn reductions_go_on()
    ensures { ReductionsGoOn }
{}

/// If a part is split off, both are reduced by themselves, and the part is glued on again, the whole is reduced by the sum of both counts.
pub fn parts_reduce_the_whole()
    ensures { PartsReduceTheWhole }
{}

/// The net, the agents and the cuts determine the part that is split off and the rest, up to the numbers of the part's agents and the order of the
/// queues.
pub fn splits_are_alike()
    ensures { SplitsAreAlike }
{}

/// The rest, the part and the cuts determine the glued net, up to the numbers of its agents and the order of the queue.
pub fn gluings_are_alike()
    ensures { GluingsAreAlike }
{}

/// If a wire was cut, and only interactions were done since, the two ends can be joined again, and the net before the cut is reduced to the joined
/// net, by as many interactions.
pub fn cuts_are_undone()
    ensures { CutsAreUndone }
{}

/// A pair needs one number of cells of each class.
pub fn needs_are_one()
    ensures { NeedsAreOne }
{}

/// A pair has two symbols, in one order.
pub fn heads_are_one()
    ensures { HeadsAreOne }
{}

/// `cut` has one result, with the same numbers of agents.
pub fn cuts_are_one()
    ensures { CutsAreOne }
{}

/// So has `join_last`: which pair it adds, if any, is determined, since what it leaves is a reducer.
pub fn joints_are_one()
    ensures { JointsAreOne }
{}

/// `take_first` has one result: one number of interactions, and one reducer up to the numbers of its agents.
pub fn first_steps_are_one()
    ensures { FirstStepsAreOne }
{}

/// After a stitch, the arena before and the bag determine which cells stay on lease. Which of the others are free is open.
pub fn settled_leases_are_one()
    ensures { SettledLeasesAreOne }
{}
