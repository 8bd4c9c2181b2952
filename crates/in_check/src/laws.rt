//! Laws on the result of checking a text, for proofs above them. No function here does anything.

ghost use Rattle.in_check.specs.Laws.{FindingsAreOne, TextsAreCheckedOnce};
ghost use Rattle.in_check.specs.Plain.{PairsHaveTheirRule, PlainAsPromised, PlainStarts, PlainSteps, PlainStepsAreOne, PlainStepsUnderNames};
ghost use Rattle.in_check.specs.Promises.{AcceptedIsSound, RenamedStepsAreRenamed, RenamingChangesNothing, SoundReachesAsPromised, StepsReach};

/// A text has one result: it is accepted or refused, never both; two refusals are equal, and two accepted programs have equal tables, rules, nets,
/// numbers of rules, open nets and steps. The law doesn't cover running out of memory.
pub fn texts_are_checked_once()
    ensures { TextsAreCheckedOnce }
{}

/// A fault determines the refusal that findings have after it: its own one, or, if memory ran out, the one of before.
pub fn findings_are_one()
    ensures { FindingsAreOne }
{}

/// The program of an accepted text is a sound system: its tables, its initial net and each of its rules meet the conditions of the laws.
pub fn accepted_is_sound()
    ensures { AcceptedIsSound }
{}

/// Each net that a sound system reaches is as promised. It is typed, has one rule for each active pair, and has no crossing circle and no vicious
/// one. Each interaction ends. Each agent leads on. The net is written whole.
pub fn sound_reaches_as_promised()
    ensures { SoundReachesAsPromised }
{}

/// The net after one more interaction is reached by one more.
pub fn steps_reach()
    ensures { StepsReach }
{}

/// Under other names for its agents, a net is reached by as many interactions, has as many agents, has ended if it has, and is
/// written alike.
pub fn renaming_changes_nothing()
    ensures { RenamingChangesNothing }
{}

/// The same interaction of two nets that differ in names alone leads to nets that differ in names alone, under any names of the new agents.
pub fn renamed_steps_are_renamed()
    ensures { RenamedStepsAreRenamed }
{}

/// The initial net of a program is reached by no interaction.
pub fn plain_starts()
    ensures { PlainStarts }
{}

/// A step at an active pair, by its rule, leads from a net that is reached to one that is reached by one more.
pub fn plain_steps()
    ensures { PlainSteps }
{}

/// .. also under other names of the new agents than `Plain` gives them.
pub fn plain_steps_under_names()
    ensures { PlainStepsUnderNames }
{}

/// In an accepted program, a step at an active pair leads to one net.
pub fn plain_steps_are_one()
    ensures { PlainStepsAreOne }
{}

/// In an accepted program, the symbols of an active pair match, and each rule for them has them in the order constructor, destructor.
pub fn pairs_have_their_rule()
    ensures { PairsHaveTheirRule }
{}

/// A net that the slow reducer keeps, of an accepted program, is as promised.
pub fn plain_as_promised()
    ensures { PlainAsPromised }
{}
