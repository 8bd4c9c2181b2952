//! Laws on usual braces in whole programs, for proofs above them. No function here does anything.

ghost use Rattle.in_usual_programs.specs.Laws.{AcceptedHaveNoCircle, RefusedHaveCircles, TextsDecide};

use in_usual_braces_of_programs::laws::{nets_decide, right_members_decide};

/// In a text whose names, nets and types have no fault, with symbols in usual braces: a rule is semi-simple exactly when its right
/// member has no directed circle, and so is the net.
pub fn texts_decide()
    ensures { TextsDecide }
{
    nets_decide();
    right_members_decide();
}

/// In an accepted program in usual braces no value is needed to compute itself.
pub fn accepted_have_no_circle()
    ensures { AcceptedHaveNoCircle }
{
    nets_decide();
    right_members_decide();
}

/// If a rule in usual braces is refused with E12, its right member has a directed circle; so has a net that is refused with E13.
pub fn refused_have_circles()
    ensures { RefusedHaveCircles }
{
    texts_decide();
}
