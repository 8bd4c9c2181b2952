//! Laws on runs whose first pairs are chosen, for proofs above them. No function here does anything.

ghost use Rattle.in_chosen_runs.specs.Laws.{ChosenRunsAreMachines, ChosenRunsAreOne, ChosenRunsAreRefusedOnce, StartsAreRefusedOnce};

/// An accepted program, choices and limits lead to one end: the number of choices done and the number of interactions after them are determined, and
/// so is the machine, up to the numbers of its agents.
pub fn chosen_runs_are_one()
    ensures { ChosenRunsAreOne }
{}

/// A program that `Machine::new` refuses as `Full` has no first machine, and the class and both numbers are determined.
pub fn starts_are_refused_once()
    ensures { StartsAreRefusedOnce }
{}

/// So it has no such run, and its refusal is determined.
pub fn chosen_runs_are_refused_once()
    ensures { ChosenRunsAreRefusedOnce }
{}

/// The end of such a run of an accepted program is a machine: the laws on machines hold of it.
pub fn chosen_runs_are_machines()
    ensures { ChosenRunsAreMachines }
{}
