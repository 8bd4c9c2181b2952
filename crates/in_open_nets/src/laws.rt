//! Laws on the definitions of open nets, for proofs above them. No function here does anything.

ghost use Rattle.in_open_nets.specs.Laws.{ClassGraphsAreOne, DerivableHasNoCircle, FirstSplittingIsOne, MembersAreListedOnce, RestIsOne, SetIsItsMembers, SplitsByBridges, SplitsOffCycles, SplitsOrFirstStuck, SplitsWhereDerivable};

/// An open net splits exactly when it is derivable. Derivable is Lafont 1990's semi-simple; to decide it by splitting is this
/// project's own choice.
pub fn splits_where_derivable()
    ensures { SplitsWhereDerivable }
{}

/// A node splits a set of nodes exactly when each of its hub edges is a bridge of the class graph of the set: a hub for each node
/// and a vertex for each of its classes, joined by the hub edges, and the wires between classes. This project's own.
pub fn splits_by_bridges()
    ensures { SplitsByBridges }
{}

/// For the class graph as a list of edges, a node splits the set exactly when none of its hub edges is on a cycle.
pub fn splits_off_cycles()
    ensures { SplitsOffCycles }
{}

/// The class graph of a part is one, up to the numbers of its vertices and edges: two of them join the same hubs and classes.
pub fn class_graphs_are_one()
    ensures { ClassGraphsAreOne }
{}

/// A derivable open net has no cycle of one or more different nodes, each entered and left by ports of different classes.
/// Lafont 1990 has semi-simple nets without vicious circles, which are such cycles.
pub fn derivable_has_no_circle()
    ensures { DerivableHasNoCircle }
{}

/// An open net splits, or it has exactly one first stuck sub-net; never both.
pub fn splits_or_first_stuck()
    ensures { SplitsOrFirstStuck }
{}

/// Two sets over as many nodes that have the same members are equal.
pub fn set_is_its_members()
    ensures { SetIsItsMembers }
{}

/// `first_splitting` has one result: a node, or that there is none.
pub fn first_splitting_is_one()
    ensures { FirstSplittingIsOne }
{}

/// `NodeSet::without` has one set as its result.
pub fn rest_is_one()
    ensures { RestIsOne }
{}

/// The members of a set, in rising order, are one list.
pub fn members_are_listed_once()
    ensures { MembersAreListedOnce }
{}
