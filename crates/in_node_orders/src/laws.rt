//! Laws on the one order of an open net's nodes, for proofs above them. No function here does anything.

ghost use Rattle.in_node_orders.specs.Laws.{FirstStuckIsLeft, NodeOrdersAreOne, OneOrderForAllParts, SplitsInItsComponent, SplitsSmallerSets, SplitsWhereAllTaken};

/// A node that splits a set of nodes splits each smaller set.
pub fn splits_smaller_sets()
    ensures { SplitsSmallerSets }
{}

/// A node splits a set exactly when it splits its component there.
pub fn splits_in_its_component()
    ensures { SplitsInItsComponent }
{}

/// A set has at most one order.
pub fn node_orders_are_one()
    ensures { NodeOrdersAreOne }
{}

/// In each part that deriving meets, the node that it takes out is the first one of the order there; where none is, no node splits the
/// part. So one order serves all parts.
pub fn one_order_for_all_parts()
    ensures { OneOrderForAllParts }
{}

/// A set splits exactly when its order has all its nodes.
pub fn splits_where_all_taken()
    ensures { SplitsWhereAllTaken }
{}

/// The first stuck sub-net is a component of what the order leaves, or all of that.
pub fn first_stuck_is_left()
    ensures { FirstStuckIsLeft }
{}
