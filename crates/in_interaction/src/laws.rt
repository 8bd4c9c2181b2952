//! Laws on the net after an interaction and on active pairs, for proofs above them. No function here does anything.

ghost use Rattle.in_interaction.specs.OutcomeLaws.{InteractionsAreOne, LeastNumbersAreNames, PairsAreListedOnce, MadePairsAreListedOnce, PairsAreKeptOrMade, PairsAreApart};

/// The net after an interaction is determined by the net before, the rule and the pair, the numbers of its wires included.
pub fn interactions_are_one()
    ensures { InteractionsAreOne }
{}

/// The list of active pairs is determined by the tables and the net.
pub fn pairs_are_listed_once()
    ensures { PairsAreListedOnce }
{}

/// The list of the active pairs that an interaction makes is determined by the tables, the net, the rule, the pair and the new agents' names.
pub fn made_pairs_are_listed_once()
    ensures { MadePairsAreListedOnce }
{}

/// The active pairs after an interaction are those of other agents, those that it makes, and the right member's own, however the new agents are
/// named.
pub fn pairs_are_kept_or_made()
    ensures { PairsAreKeptOrMade }
{}

/// An agent is in at most one active pair.
pub fn pairs_are_apart()
    ensures { PairsAreApart }
{}

/// `interact` does an interaction under the least numbers that the net doesn't have.
pub fn least_numbers_are_names()
    ensures { LeastNumbersAreNames }
{}
