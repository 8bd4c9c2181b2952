//! Laws on the definitions of open nets and crossing circles, for proofs above them. No function here does anything.

ghost use Rattle.in_crossing_circles.specs.Laws.{CrossingCirclesDecide, StuckPartsHaveCrossingCircles};

use in_open_nets::laws::{splits_or_first_stuck, splits_where_derivable};

/// An open net is derivable exactly when it has no crossing circle, for any classes of the ports of its nodes. Derivable is Lafont 1990's
/// semi-simple; that crossing circles decide it is Yeo's theorem of 1997 on edges with colours, for colours at the ends of edges.
pub fn crossing_circles_decide()
    ensures { CrossingCirclesDecide }
{
    splits_or_first_stuck();
    splits_where_derivable();
}

/// The first stuck sub-net has a crossing circle in it. So each refusal can show one.
pub fn stuck_parts_have_crossing_circles()
    ensures { StuckPartsHaveCrossingCircles }
{}
