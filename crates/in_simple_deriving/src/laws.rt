//! Laws on the definitions of deriving, for proofs above them. No function here does anything.

ghost use Rattle.in_simple_deriving.specs.Laws.{DerivationWhereDerivable, NetsAreDerivedOnce, OneStuckPlace};

/// An open net has a derivation exactly when it is derivable.
pub fn derivation_where_derivable()
    ensures { DerivationWhereDerivable }
{}

/// Deriving an open net has one result: steps, in their order, or one stuck sub-net; never both.
pub fn nets_are_derived_once()
    ensures { NetsAreDerivedOnce }
{}

/// A stuck open net is refused at one place.
pub fn one_stuck_place()
    ensures { OneStuckPlace }
{}
