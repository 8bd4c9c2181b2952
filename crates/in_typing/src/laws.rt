//! Laws on the definitions of types, for proofs above them. No function here does anything.

ghost use Rattle.in_typing.specs.Laws.{NetsAreTypedOnce, RulesAreTypedOnce, StepsStayTyped, TypedAlongPaths, TypedPairsMatch, TypedPartsAreTypedNets};

/// In a typed net, the two agents of an active pair are a constructor and a destructor of one type.
pub fn typed_pairs_match()
    ensures { TypedPairsMatch }
{}

/// Typing a net has one result: it is typed, or it has one first wire that doesn't fit.
pub fn nets_are_typed_once()
    ensures { NetsAreTypedOnce }
{}

/// Typing a rule has one result.
pub fn rules_are_typed_once()
    ensures { RulesAreTypedOnce }
{}

/// Parts that are typed are a typed net over their signature.
pub fn typed_parts_are_typed_nets()
    ensures { TypedPartsAreTypedNets }
{}

/// Types agree along an alternating path: its ends have types of one name and opposite signs, since its boundary ends have the types of
/// the auxiliary ports that they replace.
pub fn typed_along_paths()
    ensures { TypedAlongPaths }
{}

/// An interaction keeps a net typed.
pub fn steps_stay_typed()
    ensures { StepsStayTyped }
{}
