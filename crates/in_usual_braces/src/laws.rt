//! Laws on the definitions of usual braces, for proofs above them. No function here does anything.

ghost use Rattle.in_usual_braces.specs.Laws.{CrossingDirectedCirclesDecide, DirectedCirclesCross, NoBracesMend, StuckPartsHaveCircles, UsualBracesDecide};

use in_open_nets::laws::{splits_or_first_stuck, splits_where_derivable};

/// If all outputs of a node are of one class, an open net is derivable exactly when it has no directed circle that enters and leaves
/// each of its nodes by different classes. Derivable is Lafont 1990's semi-simple; that directed circles decide it is this project's own.
pub fn crossing_directed_circles_decide()
    ensures { CrossingDirectedCirclesDecide }
{
    splits_or_first_stuck();
    splits_where_derivable();
}

/// If no input of a node is of the class of an output, each directed circle is such a circle.
pub fn directed_circles_cross()
    ensures { DirectedCirclesCross }
{}

/// So with both, an open net is derivable exactly when it has no directed circle.
pub fn usual_braces_decide()
    ensures { UsualBracesDecide }
{
    crossing_directed_circles_decide();
    directed_circles_cross();
}

/// A circle that goes through the principal port of each of its agents excludes a derivation, for any braces around the other ports: the
/// principal port is a class by itself.
pub fn no_braces_mend()
    ensures { NoBracesMend }
{}

/// If all outputs of each node of the first stuck sub-net are of one class, the sub-net has a directed circle that crosses, which the refusal can
/// show. So without such a circle some node of it has outputs of several classes.
pub fn stuck_parts_have_circles()
    ensures { StuckPartsHaveCircles }
{}
