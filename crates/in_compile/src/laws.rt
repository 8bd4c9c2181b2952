//! Laws on templates, stocks and placed members, for proofs above them. No function here does anything.

ghost use Rattle.in_compile.specs.Laws.{EachPairHasOneTemplate, TemplatesAreOne, TemplatesOfAreOne, LargestNeedsAreOne, MostAgentsAreOne, AgentNeedsAreOne, FirstShortsAreOne, WiresOverAreListed, WiresWithinAreListed, WiresAreListedOnce};
ghost use Rattle.in_compile.specs.PlacingLaws.{MembersAreOne, MemberPutsAreOne, RegainsAreOne, LeasingKeepsAll, GivingBackKeepsAll, AllGoBack, PlacingLosesNone, SettlingLosesNone, PlacingSharesOut, OtherBagsStay, SettledMembersStand};

/// In an accepted program, every two matching symbols have exactly one template, in either order, and it is that of their rule.
pub fn each_pair_has_one_template()
    ensures { EachPairHasOneTemplate }
{}

/// A template is determined by its rule.
pub fn templates_are_one()
    ensures { TemplatesAreOne }
{}

/// The templates of a program are determined: the same ones by number and for each two symbols, and the same initial net.
pub fn templates_of_are_one()
    ensures { TemplatesOfAreOne }
{}

/// The largest need is determined by the templates.
pub fn largest_needs_are_one()
    ensures { LargestNeedsAreOne }
{}

/// The most agents of a template are determined by the templates.
pub fn most_agents_are_one()
    ensures { MostAgentsAreOne }
{}

/// The cells that agents need are determined.
pub fn agent_needs_are_one()
    ensures { AgentNeedsAreOne }
{}

/// Which class is the first that is short is determined, and whether one is.
pub fn first_shorts_are_one()
    ensures { FirstShortsAreOne }
{}

/// A member is determined by its net.
pub fn members_are_one()
    ensures { MembersAreOne }
{}

/// The wires of a net that have a free end are listed by its member, each once, by its lowest free end and its other point.
pub fn wires_over_are_listed()
    ensures { WiresOverAreListed }
{}

/// The wires between agents of a net are listed by its member.
pub fn wires_within_are_listed()
    ensures { WiresWithinAreListed }
{}

/// No point of a net is in two of the wires that its member lists.
pub fn wires_are_listed_once()
    ensures { WiresAreListedOnce }
{}

/// The result of putting a member into an arena is determined by the cells that its agents get.
pub fn puts_are_one()
    ensures { MemberPutsAreOne }
{}

/// An arena that regains the cells of a bag becomes one arena: so spending and settling have one result.
pub fn regains_are_one()
    ensures { RegainsAreOne }
{}

/// Leasing into a stock loses no cell: each class has as many cells that are free or held as before.
pub fn leasing_keeps_all()
    ensures { LeasingKeepsAll }
{}

/// Nor does giving back: the cells of a bag in which nothing is written are all free again.
pub fn giving_back_keeps_all()
    ensures { GivingBackKeepsAll }
{}

/// A stock that is filled and spent leaves the arena as it was.
pub fn all_go_back()
    ensures { AllGoBack }
{}

/// Placing loses no cell: giving back the rest of the stock and the placed cells leaves the arena as giving back the stock would.
pub fn placing_loses_none()
    ensures { PlacingLosesNone }
{}

/// Nor does settling. Once the rest of the stock is spent and the placed cells are settled, the arena has the placed agents. All else in it is as
/// before the stock was filled.
pub fn settling_loses_none()
    ensures { SettlingLosesNone }
{}

/// The placed cells and the rest of a stock are of the stock's arena, and have no cell in common.
pub fn placing_shares_out()
    ensures { PlacingSharesOut }
{}

/// A bag of a stock or of placed cells stays one of its arena if the arena regains the cells of another bag without a common cell.
pub fn other_bags_stay()
    ensures { OtherBagsStay }
{}

/// A placed member that is settled is in the arena: its agents with their symbols and their inner wires, and at boundary ends these ends'
/// numbers.
pub fn settled_members_stand()
    ensures { SettledMembersStand }
{}
