//! Laws on reducers that differ in the numbers of their agents alone, for proofs above them. No function here does anything.

ghost use Rattle.in_reducer.specs.NameLaws.{AreSameIsAnEquivalence, PairsCanStandAside, ReducersCanBeRenamed, RunsCanBeRenamed, RunsKeepSame, RunsUpToNumbersAreSame, RunsUpToNumbersGoOn, RunsUpToNumbersTakeSteps, SameAreReducers, StartsCanBeRenamed, StepsCanBeRenamed, StepsKeepSame, StepsUpToNumbersAreSame};

/// Being the same up to the numbers of agents is an equivalence of reducers.
pub fn are_same_is_an_equivalence()
    ensures { AreSameIsAnEquivalence }
{}

/// A state that is the same as a reducer up to the numbers of its agents is a reducer.
pub fn same_are_reducers()
    ensures { SameAreReducers }
{}

/// A start under any other numbers is a start.
pub fn starts_can_be_renamed()
    ensures { StartsCanBeRenamed }
{}

/// There is a reducer under any numbers that keep its agents apart.
pub fn reducers_can_be_renamed()
    ensures { ReducersCanBeRenamed }
{}

/// The same interaction of two reducers that are the same up to the numbers of their agents leads to two reducers that are the same in this way.
pub fn steps_keep_same()
    ensures { StepsKeepSame }
{}

/// So do runs of as many interactions.
pub fn runs_keep_same()
    ensures { RunsKeepSame }
{}

/// The result of an interaction up to the numbers of agents is determined up to these numbers.
pub fn steps_up_to_numbers_are_same()
    ensures { StepsUpToNumbersAreSame }
{}

/// So is the result of a run up to the numbers of agents.
pub fn runs_up_to_numbers_are_same()
    ensures { RunsUpToNumbersAreSame }
{}

/// The result of an interaction, under any other numbers, is the result of an interaction of the reducer under some numbers.
pub fn steps_can_be_renamed()
    ensures { StepsCanBeRenamed }
{}

/// .. and so for a run: k interactions up to the numbers of agents are k interactions from a start under other numbers.
pub fn runs_can_be_renamed()
    ensures { RunsCanBeRenamed }
{}

/// Two runs up to numbers, one after the other, are one run.
pub fn runs_up_to_numbers_go_on()
    ensures { RunsUpToNumbersGoOn }
{}

/// A run up to numbers, followed by an interaction up to numbers, is one run: so it stays one while the first pairs are taken one after another.
pub fn runs_up_to_numbers_take_steps()
    ensures { RunsUpToNumbersTakeSteps }
{}

/// Two agents of a reducer can get any two numbers that it doesn't have, while all others keep theirs: so the cells of a pair can be used again.
pub fn pairs_can_stand_aside()
    ensures { PairsCanStandAside }
{}
