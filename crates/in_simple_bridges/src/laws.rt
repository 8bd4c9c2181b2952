//! Laws over the definitions. No function here does anything.

ghost use Rattle.in_simple_bridges.specs.Trees.{TreeEdges, OtherEdges};

/// A tree edge is on a cycle exactly when another edge leaves the interval of its lower end.
pub fn tree_edges()
    ensures { TreeEdges }
{}

/// Each edge that is not in the forest is on a cycle.
pub fn other_edges()
    ensures { OtherEdges }
{}
