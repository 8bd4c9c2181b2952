//! Laws over interactions in place. No function here does anything.

ghost use Rattle.in_reducer.specs.Aside.{PairsAsideAreAlike};
ghost use Rattle.in_reusing.specs.InPlace.{InPlaceExists, InPlaceIsAStep, InPlaceIsOne};
ghost use Rattle.in_reusing.specs.StepsInPlace.{StepsInPlaceAreSame, StepsInPlaceAreSteps};
ghost use Rattle.in_reusing.specs.Unmarked.{UnmarkedLeadNoneBack, UnmarkedPairsOfSoundNetsAreApart};

/// A net in which only an active pair has other numbers has the same partners at the pair's auxiliary ports, and the same other wires, as the
/// net itself, if no wire leads back to the pair. So new agents may have the numbers that the pair had.
pub fn pairs_aside_are_alike()
    ensures { PairsAsideAreAlike }
{}

/// Overwriting partners in the net itself, with new agents under any numbers that no other agent has (the pair's are allowed), is an interaction of
/// the net in which the pair has other numbers.
pub fn reuse_is_a_step()
    ensures { InPlaceIsAStep }
{}

/// There is a net that is overwritten in this way.
pub fn reuse_exists()
    ensures { InPlaceExists }
{}

/// There is only one such net.
pub fn reuse_is_one()
    ensures { InPlaceIsOne }
{}

/// A reducer's interaction in place is one up to numbers.
pub fn steps_in_place_are_steps()
    ensures { StepsInPlaceAreSteps }
{}

/// And it leads to one reducer up to numbers.
pub fn steps_in_place_are_same()
    ensures { StepsInPlaceAreSame }
{}

/// In a sound net of a sound system no wire leads back to an active pair without a marked symbol.
pub fn unmarked_pairs_of_sound_nets_are_apart()
    ensures { UnmarkedPairsOfSoundNetsAreApart }
{}

/// So none leads back to such a pair of a reducer.
pub fn unmarked_lead_none_back()
    ensures { UnmarkedLeadNoneBack }
{}
