//! Laws over the definitions alone. No function here does anything.

ghost use Rattle.in_gluing.specs.AsGluing.{BoundaryIsCut, InteractionsAreGluings, RestExists, RestIsNet};
ghost use Rattle.in_gluing.specs.EndByEnd.{AllJoinedIsStep, AnyOrderIsStep, BesideHasJoinedNone, EndsAreJoinedInTurn, EndsFromHaveOneMore, EndsFromNoneToAll, TakenApartExists, TakenApartHasJoinedNone};
ghost use Rattle.in_gluing.specs.Joining.{AllJoinedIsGlued, BesideJoinsNone, CutsAreJoined, JoinExists, JoinsLeadBack, JoinsNext};
ghost use Rattle.in_gluing.specs.Laws.{FramesGlue, FramesStep, GluedOnce, NamesExist, PairsAreOfPartsOrMade, RenamedExists};
ghost use Rattle.in_gluing.specs.MadeByJoining.{AllMadeAreOverEnds, JoinsAtLowestEnd, NoMoreIsMade, NoneIsMadeFirst, OneMoreIsMade, PairsAreMadeWhereJoined};
ghost use Rattle.in_gluing.specs.Orders.{InteractionsCommute, OrdersAreBothAtOnce, OrdersAreOne};
ghost use Rattle.in_gluing.specs.SideBySide.{BesideIsOne, BesidePartsAreAlike, BesidePartsAreNets};

/// Under birth names, two interactions on different active pairs, in either order, lead to one net.
pub fn interactions_commute()
    ensures { InteractionsCommute }
{}

/// Under birth names, two interactions lead to one net in either order.
pub fn orders_are_one()
    ensures { OrdersAreOne }
{}

/// Two interactions, one after the other, lead to the net after both at once.
pub fn orders_are_both_at_once()
    ensures { OrdersAreBothAtOnce }
{}

/// An interaction of one part is an interaction of the whole: the parts after it, glued, are the whole after it. Different agents must have
/// different names.
pub fn frames_step()
    ensures { FramesStep }
{}

/// The whole after an interaction of one part is glued from the parts after it, so there is such a net.
pub fn frames_glue()
    ensures { FramesGlue }
{}

/// The active pairs of the whole are those of its parts, and those that joints make.
pub fn pairs_are_of_parts_or_made()
    ensures { PairsAreOfPartsOrMade }
{}

/// There are names by part and agent that differ for different agents.
pub fn names_exist()
    ensures { NamesExist }
{}

/// Under names that keep a net's agents apart, the net has a renamed net.
pub fn renamed_exists()
    ensures { RenamedExists }
{}

/// The same parts, glued along the same cuts, are one net, up to the names of its agents.
pub fn glued_once()
    ensures { GluedOnce }
{}

/// A net in which parts are side by side is these parts without any joint.
pub fn beside_joins_none()
    ensures { BesideJoinsNone }
{}

/// The next joint is made by making the partners of its two free ends partners of one another. Each has to be the only free end in use of its
/// number.
pub fn joins_next()
    ensures { JoinsNext }
{}

/// If all joints are made, and the free ends that stay have their numbers, the net is glued.
pub fn all_joined_is_glued()
    ensures { AllJoinedIsGlued }
{}

/// A joint can always be made.
pub fn join_exists()
    ensures { JoinExists }
{}

/// In each net that a joint makes, partners lead back.
pub fn joins_lead_back()
    ensures { JoinsLeadBack }
{}

/// Joining the two new free ends of a wire that was cut undoes the cut.
pub fn cuts_are_joined()
    ensures { CutsAreJoined }
{}

/// The rest of a net without one of its active pairs exists.
pub fn rest_exists()
    ensures { RestExists }
{}

/// A net without one of its active pairs is a net.
pub fn rest_is_net()
    ensures { RestIsNet }
{}

/// A net without one of its active pairs is cut from the right member at free ends of opposite types, and the net's own free ends stay.
pub fn boundary_is_cut()
    ensures { BoundaryIsCut }
{}

/// An interaction is a gluing: the net after it is the net without the pair, glued to the right member along the boundary ends.
pub fn interactions_are_gluings()
    ensures { InteractionsAreGluings }
{}

/// There is a net without the pair, with the right member beside it.
pub fn taken_apart_exists()
    ensures { TakenApartExists }
{}

/// In the net without the pair, with the right member beside it, no boundary end is joined.
pub fn taken_apart_has_joined_none()
    ensures { TakenApartHasJoinedNone }
{}

/// If the rest of the net and the right member are side by side, no boundary end is joined.
pub fn beside_has_joined_none()
    ensures { BesideHasJoinedNone }
{}

/// One boundary end more is joined by making the partners of its two sides partners of one another. No path is followed.
pub fn ends_are_joined_in_turn()
    ensures { EndsAreJoinedInTurn }
{}

/// The boundary ends from one on are those from the next one on, and that one.
pub fn ends_from_have_one_more()
    ensures { EndsFromHaveOneMore }
{}

/// From their number on there is no boundary end, and from 0 on there are all.
pub fn ends_from_none_to_all()
    ensures { EndsFromNoneToAll }
{}

/// If all boundary ends are joined, the net is the one after the interaction.
pub fn all_joined_is_step()
    ensures { AllJoinedIsStep }
{}

/// The net taken apart, and joined at the boundary ends one after another in any order, is the net after the interaction.
pub fn any_order_is_step()
    ensures { AnyOrderIsStep }
{}

/// If the boundary ends are joined from the highest to the lowest, one makes two ports partners exactly if it is the lowest end between them.
pub fn joins_at_lowest_end()
    ensures { JoinsAtLowestEnd }
{}

/// If the boundary ends are joined from the highest to the lowest, one makes an active pair exactly if two principal ports are at its sides;
/// it is the pair of which this is the lowest end.
pub fn pairs_are_made_where_joined()
    ensures { PairsAreMadeWhereJoined }
{}

/// Before any boundary end is joined no pair is made.
pub fn none_is_made_first()
    ensures { NoneIsMadeFirst }
{}

/// The pair that is made at the next boundary end is the only pair more.
pub fn one_more_is_made()
    ensures { OneMoreIsMade }
{}

/// If no pair is made at the next boundary end, there is no pair more.
pub fn no_more_is_made()
    ensures { NoMoreIsMade }
{}

/// When all boundary ends are joined, the pairs in reverse order are those that the interaction makes over boundary ends, in their order.
pub fn all_made_are_over_ends()
    ensures { AllMadeAreOverEnds }
{}

/// Two parts side by side in a net are nets, if both have finitely many agents, and wires that lead both ways between their own points.
pub fn beside_parts_are_nets()
    ensures { BesidePartsAreNets }
{}

/// The symbols of the first part determine which nets are side by side in a net, except for the numbers that agents of the second have in
/// it.
pub fn beside_parts_are_alike()
    ensures { BesidePartsAreAlike }
{}

/// Two nets are side by side in one net, up to the names of its agents.
pub fn beside_is_one()
    ensures { BesideIsOne }
{}
