//! Laws over the definitions alone. No function here does anything.

ghost use Rattle.in_order.specs.GluingLaws.{CutRunAndGlued, CutsKeepSound, PartsAreSound, PartsAreSoundByNames, RunsAreGlued, RunsKeepSound, SoundIsPromised, SoundIsStart, SoundSteps};
ghost use Rattle.in_order.specs.PartRuns.{RunsGoOn, RunsLeadOn};
ghost use Rattle.in_order.specs.Reducible.{PlainIsReducible, ReducibleAsPromised, ReduciblePairsHaveTheirRule, ReducibleSteps, ReducibleStepsAreOne, ReducibleStepsUnderNames};
ghost use Rattle.in_order.specs.Ends.{ProgramsHaveOneEnd};
ghost use Rattle.in_order.specs.Laws.{InteractionsMeet, RunsAreJoined, RunsEndAlike, RunsLeadToTheEnd};
ghost use Rattle.in_order.specs.Leading.{BesideLeads, BesidePartsAreSound, BesideSoundIsSound, CutDownIsSound, CutDownLeadsAreJoinedUp, CutLeadsAreJoined, CutOnceIsSound, LeadsGoOn, PartsLeadTheWhole};

/// Two interactions of a reached net on different active pairs meet: each can follow the other, and the nets after both are equal up to names.
pub fn interactions_meet()
    ensures { InteractionsMeet }
{}

/// Two runs of a sound system that end have as many interactions, and end in one net up to names and in one text.
pub fn runs_end_alike()
    ensures { RunsEndAlike }
{}

/// If some run of a sound system ends, no run is longer, and each continues to its end by as many interactions as it has less.
pub fn runs_lead_to_the_end()
    ensures { RunsLeadToTheEnd }
{}

/// If one run reaches a net, and another run from there reaches a second one, one run reaches the second.
pub fn runs_are_joined()
    ensures { RunsAreJoined }
{}

/// An accepted program has one end, if it has any: each run that ends has one number of interactions and one text.
pub fn programs_have_one_end()
    ensures { ProgramsHaveOneEnd }
{}

/// A run continues where another one ended.
pub fn runs_go_on()
    ensures { RunsGoOn }
{}

/// A run leads from a reached net to a reached net, by as many interactions more.
pub fn runs_lead_on()
    ensures { RunsLeadOn }
{}

/// Parts that are reduced each by itself are glued to a net that is reached by all their interactions together.
pub fn runs_are_glued()
    ensures { RunsAreGlued }
{}

/// A net that is reached, cut into sound parts that are reduced each by itself and glued again, is reached by all their interactions. The
/// names of agents before, in the parts and after are left open.
pub fn cut_run_and_glued()
    ensures { CutRunAndGlued }
{}

/// A sound net of a sound system is as promised, whether or not the system reaches it.
pub fn sound_is_promised()
    ensures { SoundIsPromised }
{}

/// An interaction of a sound system leaves a sound net sound.
pub fn sound_steps()
    ensures { SoundSteps }
{}

/// A run of a sound system keeps a net sound.
pub fn runs_keep_sound()
    ensures { RunsKeepSound }
{}

/// A sound system that begins with a sound net is sound.
pub fn sound_is_start()
    ensures { SoundIsStart }
{}

/// A part of a sound net is sound, if it is a net and is typed where it is cut.
pub fn parts_are_sound()
    ensures { PartsAreSound }
{}

/// A part of a sound net is sound, for any names of its agents in the whole.
pub fn parts_are_sound_by_names()
    ensures { PartsAreSoundByNames }
{}

/// A net that an accepted program reaches is sound, as a reducer requires.
pub fn plain_is_reducible()
    ensures { PlainIsReducible }
{}

/// In an accepted program, a reducer's step leads from a sound net to a sound net, by one interaction more.
pub fn reducible_steps()
    ensures { ReducibleSteps }
{}

/// The same if new agents have any other new names.
pub fn reducible_steps_under_names()
    ensures { ReducibleStepsUnderNames }
{}

/// In an accepted program, each active pair of a reducer's net matches and has its rule.
pub fn reducible_pairs_have_their_rule()
    ensures { ReduciblePairsHaveTheirRule }
{}

/// In an accepted program, a reducer's step leads to one net.
pub fn reducible_steps_are_one()
    ensures { ReducibleStepsAreOne }
{}

/// In an accepted program, a reducer's net is as promised.
pub fn reducible_as_promised()
    ensures { ReducibleAsPromised }
{}

/// A sound net that is cut at a wire is sound.
pub fn cuts_keep_sound()
    ensures { CutsKeepSound }
{}

/// A run continues where another one ended: their counts are added.
pub fn leads_go_on()
    ensures { LeadsGoOn }
{}

/// Two sound parts of a sound net, each reduced by itself and glued along the same cuts: the whole leads to the net that they are glued to, with as
/// many interactions as both did. Agents may have any names, before and after, in the parts and in the whole.
pub fn parts_lead_the_whole()
    ensures { PartsLeadTheWhole }
{}

/// A sound net stays sound if a wire is cut.
pub fn cut_once_is_sound()
    ensures { CutOnceIsSound }
{}

/// A wire of a net is cut, the net with the cut leads to another one, and there the two ends are joined again: then the net itself leads to the
/// joined one. So wires may be cut one after another and joined in the opposite order.
pub fn cut_leads_are_joined()
    ensures { CutLeadsAreJoined }
{}

/// If each of two nets leads to another one, the two side by side lead to those side by side.
pub fn beside_leads()
    ensures { BesideLeads }
{}

/// A sound net stays sound if wires are cut, one after another.
pub fn cut_down_is_sound()
    ensures { CutDownIsSound }
{}

/// Wires of a net are cut one after another, the net with the cuts leads to another one, and there the ends are joined again in the opposite order:
/// then the net itself leads to the joined one.
pub fn cut_down_leads_are_joined_up()
    ensures { CutDownLeadsAreJoinedUp }
{}

/// Nets side by side in a sound net are sound.
pub fn beside_parts_are_sound()
    ensures { BesidePartsAreSound }
{}

/// Sound nets side by side are a sound net.
pub fn beside_sound_is_sound()
    ensures { BesideSoundIsSound }
{}
