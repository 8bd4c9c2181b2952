//! Laws on runs and their outcomes, for proofs above them. No function here does anything.

ghost use Rattle.in_run.specs.Laws.{NormalOutcomesAreOne, OutcomesAreMachines, OutcomesAreReached, OutcomesAreSame, OutcomesStopAlike, ProgramsEndAlike, StopsAreOne, StopsAreSame, TurnsAreAllowed, TurnsAreOne};

/// A machine stops in one way, after a given number of interactions within a limit.
pub fn stops_are_one()
    ensures { StopsAreOne }
{}

/// With any number of workers: runs of a program that end at one machine, up to the numbers of its agents, and after as many interactions, have one
/// stop. At which machine several workers stop, and after how many interactions, is open, unless the stop is `Normal`.
pub fn outcomes_stop_alike()
    ensures { OutcomesStopAlike }
{}

/// Machines that are the same up to the numbers of their agents stop alike.
pub fn stops_are_same()
    ensures { StopsAreSame }
{}

/// .. and have one outcome within a limit: one count, one stop, and a machine that is one up to the numbers of its agents.
pub fn outcomes_are_same()
    ensures { OutcomesAreSame }
{}

/// A run's outcome is a machine, at any stop: the laws on machines hold of it.
pub fn outcomes_are_machines()
    ensures { OutcomesAreMachines }
{}

/// The net of a run's outcome is reached by exactly as many interactions as were counted.
pub fn outcomes_are_reached()
    ensures { OutcomesAreReached }
{}

/// A run whose interactions are first in, first out is one that any number of workers may do. One worker does no other, by the contract of
/// `run`.
pub fn turns_are_allowed()
    ensures { TurnsAreAllowed }
{}

/// Interactions in turn of an accepted program within limits have one outcome, up to the numbers of agents, with any number of workers.
pub fn turns_are_one()
    ensures { TurnsAreOne }
{}

/// With one worker an accepted program within limits has one outcome, up to the numbers of agents.
pub fn programs_end_alike()
    ensures { ProgramsEndAlike }
{}

/// A run that stops as `Normal` has reached the only end of its program, with any workers and limits.
pub fn normal_outcomes_are_one()
    ensures { NormalOutcomesAreOne }
{}
