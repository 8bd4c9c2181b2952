//! Laws on the limits of a text, for proofs above them. No function here does anything.

ghost use Rattle.in_larger_limits.specs.Laws.{AcceptedByLarge, TextsAreCheckedAlike, TextsAreParsedAlike};

/// A text that is parsed by any limits has the same tree by the large ones, but for the limits that the tree keeps; if it is refused, and not by a
/// limit, it has the same refusal.
pub fn texts_are_parsed_alike()
    ensures { TextsAreParsedAlike }
{}

/// A text that is accepted by any limits is the same program by the large ones, with the same steps; if it is refused, and not by a limit, it has
/// the same refusal.
pub fn texts_are_checked_alike()
    ensures { TextsAreCheckedAlike }
{}

/// A program of a text by any limits is its program by the large ones.
pub fn accepted_by_large()
    ensures { AcceptedByLarge }
{}
