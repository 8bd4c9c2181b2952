//! Laws on the definition of the result of `cover`, for proofs above it. No function here does anything.

ghost use Rattle.in_cover.specs.Laws.{RefusedRulesAreIncomplete, OneRefusal, RulesAreCoveredOnce};

/// Rules that are refused aren't complete: some pair has two rules or none.
pub fn refused_rules_are_incomplete()
    ensures { RefusedRulesAreIncomplete }
{}

/// Rules have at most one first fault.
pub fn one_refusal()
    ensures { OneRefusal }
{}

/// Covering the rules has one result: two tables have the same rule for each two symbols, two refusals are equal, and there is never one of each.
pub fn rules_are_covered_once()
    ensures { RulesAreCoveredOnce }
{}
