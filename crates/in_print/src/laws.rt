//! Laws over the text of a machine's net. No function here does anything.

ghost use Rattle.in_print.specs.Laws.{TextsAreSame, TextsHoldAll};

/// The text of a machine's net holds each agent once and each variable twice, and no other agent or variable: so it is as deep as its terms need.
pub fn texts_hold_all()
    ensures { TextsHoldAll }
{}

/// The text doesn't depend on the numbers of agents: machines that are the same up to them have one text.
pub fn texts_are_same()
    ensures { TextsAreSame }
{}
