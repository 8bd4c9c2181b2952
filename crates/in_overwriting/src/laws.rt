//! Laws over the definitions alone. No function here does anything.

ghost use Rattle.in_overwriting.specs.BySign.{OutputStandsFirst, OutputStandsFirstWithin, SidesHaveTypes, SidesTellThePair};
ghost use Rattle.in_overwriting.specs.Flag.{NoWireBetween, OneClassOfOneAgent, UnmarkedPairsAreApart};
ghost use Rattle.in_overwriting.specs.InTurn.{StoredAreOverwritten, WiresInTwoParts};
ghost use Rattle.in_overwriting.specs.MadeByWires.{PairsAreMadeByWires, WiresMakeAllPairs, WiresMakeOne, WiresMakeOwnInTurn, WiresMakePairsInTurn};
ghost use Rattle.in_overwriting.specs.Overwriting.{OverwrittenExists, OverwrittenIsOne, OverwrittenLeadsNoneBack, SidesAreApart, StepsAreOverwritten};

/// If no wire of the net joins two auxiliary ports of the pair, the net after an interaction is exactly the one whose partners are the old
/// ones, overwritten at both sides of each wire of the right member.
pub fn steps_are_overwritten()
    ensures { StepsAreOverwritten }
{}

/// There is a net that is so overwritten.
pub fn overwritten_exists()
    ensures { OverwrittenExists }
{}

/// There is at most one such net.
pub fn overwritten_is_one()
    ensures { OverwrittenIsOne }
{}

/// There is no such net if a wire leads back to the pair.
pub fn overwritten_leads_none_back()
    ensures { OverwrittenLeadsNoneBack }
{}

/// The sides at different points of the right member are different, and none is a port of the pair.
pub fn sides_are_apart()
    ensures { SidesAreApart }
{}

/// The wires of a right member may be written one after another, in any order and direction, for any old partners of their sides.
pub fn stored_are_overwritten()
    ensures { StoredAreOverwritten }
{}

/// The wires with boundary ends, each from its lowest end, and those between new agents are all wires of a right member.
pub fn wires_in_two_parts()
    ensures { WiresInTwoParts }
{}

/// The pairs that an interaction makes over boundary ends are those of the right member's wires whose two sides are principal ports.
pub fn pairs_are_made_by_wires()
    ensures { PairsAreMadeByWires }
{}

/// A wire makes at most one pair.
pub fn wires_make_one()
    ensures { WiresMakeOne }
{}

/// If the wires with boundary ends are taken by their lowest ends, the pairs come out in their order, and there is such a list.
pub fn wires_make_pairs_in_turn()
    ensures { WiresMakePairsInTurn }
{}

/// The right member's own pairs are those of its listed wires between principal ports, in turn.
pub fn wires_make_own_in_turn()
    ensures { WiresMakeOwnInTurn }
{}

/// With the right member's own pairs behind them, these are the pairs that an interaction makes.
pub fn wires_make_all_pairs()
    ensures { WiresMakeAllPairs }
{}

/// In the net after an interaction of typed nets, a side has the type of its point in the right member.
pub fn sides_have_types()
    ensures { SidesHaveTypes }
{}

/// So of two principal ports at the sides of a wire, the one at the output is a constructor's, which is first.
pub fn output_stands_first()
    ensures { OutputStandsFirst }
{}

/// So the two sides of a wire with a boundary end determine the pair that it makes.
pub fn sides_tell_the_pair()
    ensures { SidesTellThePair }
{}

/// Of a wire between two principal ports of a right member, the agent at the output is first.
pub fn output_stands_first_within()
    ensures { OutputStandsFirstWithin }
{}

/// In a typed net without crossing circle no wire joins auxiliary ports of the two agents of an active pair.
pub fn no_wire_between()
    ensures { NoWireBetween }
{}

/// There a wire that joins two auxiliary ports of one agent joins ports of one class, with types of one name and opposite signs: the agent's
/// symbol is marked.
pub fn one_class_of_one_agent()
    ensures { OneClassOfOneAgent }
{}

/// So if neither symbol is marked, no wire joins two auxiliary ports of the pair.
pub fn unmarked_pairs_are_apart()
    ensures { UnmarkedPairsAreApart }
{}
