//! Laws on the definitions of a net, for proofs above them. No function here does anything.

ghost use Rattle.in_net.specs.Laws.{NetsAreBuiltOnce, NetsAreRenewedOnce, RulesAreBuiltOnce, PartnersLeadBack, TextNetsAreOne, WholePartsAreNets, WiresJoinOnePair};

/// In a net, the partner of a point's partner is the point, and no point is its own partner.
pub fn partners_lead_back()
    ensures { PartnersLeadBack }
{}

/// The parts of a net over some tables are a net over their signature: finitely many agents, and each point on exactly one wire.
pub fn whole_parts_are_nets()
    ensures { WholePartsAreNets }
{}

/// A text has one net: two nets of one text have the same agents and free ends, and partners at the same spots of the text.
pub fn text_nets_are_one()
    ensures { TextNetsAreOne }
{}

/// Building the net of a text's program has one result: two nets are equal, with the numbers and places of their wires.
pub fn nets_are_built_once()
    ensures { NetsAreBuiltOnce }
{}

/// Building a rule of a text's program has one result.
pub fn rules_are_built_once()
    ensures { RulesAreBuiltOnce }
{}

/// A net that gets other agents and wires, and other partners for its free ends, becomes one net.
pub fn nets_are_renewed_once()
    ensures { NetsAreRenewedOnce }
{}

/// A wire joins at most one active pair. This holds in any net, also in one that no text has.
pub fn wires_join_one_pair()
    ensures { WiresJoinOnePair }
{}
