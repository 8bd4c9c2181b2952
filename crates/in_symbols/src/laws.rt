//! Laws on the definitions of tables and of matching symbols, for proofs above them. No function here does anything.

ghost use Rattle.in_symbols.specs.Laws.{MatchingIsSymmetric, MatchingTypesAreOpposite, TablesAreOnce};

/// Of two symbols, the first matches the second exactly when the second matches the first.
pub fn matching_is_symmetric()
    ensures { MatchingIsSymmetric }
{}

/// Two symbols match exactly when their principal types have one name and opposite signs.
pub fn matching_types_are_opposite()
    ensures { MatchingTypesAreOpposite }
{}

/// Building the tables of a text's program has one result.
pub fn tables_are_once()
    ensures { TablesAreOnce }
{}
