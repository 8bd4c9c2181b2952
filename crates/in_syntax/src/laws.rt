//! Laws of the definitions that contracts cite, each the contract of a function that does nothing.
ghost use Rattle.in_syntax.specs.GrammarLaws.{OneOutcome, OneTree, PrefixesBegin};
ghost use Rattle.in_syntax.specs.Laws.{TokensAreUnique, TokenFaultsAreUnique, TextsHaveTokensOrFault, NoTextHasBoth, TokensStandInTheirText, TokensStandInOrder, OneAnswer, TextsAreParsedOnce, TextsBeginApart, OneExpected, TextsAreNotedOnce};

/// A text has at most one list of tokens.
pub fn tokens_are_unique()
    ensures { TokensAreUnique }
{}

/// A text has at most one first fault of its tokens.
pub fn token_faults_are_unique()
    ensures { TokenFaultsAreUnique }
{}

/// A text has tokens or a fault of its tokens.
pub fn texts_have_tokens_or_fault()
    ensures { TextsHaveTokensOrFault }
{}

/// No text has tokens and a fault of its tokens.
pub fn no_text_has_both()
    ensures { NoTextHasBoth }
{}

/// Each token of a text is in it.
pub fn tokens_stand_in_their_text()
    ensures { TokensStandInTheirText }
{}

/// The tokens of a text are in it one after another.
pub fn tokens_stand_in_order()
    ensures { TokensStandInOrder }
{}

/// A list of signs is one program within the limits, with one tree, or it has one first fault; never both.
pub fn one_outcome()
    ensures { OneOutcome }
{}

/// Two programs that are spelled alike have one tree, and pass the limits at the same tokens.
pub fn one_tree()
    ensures { OneTree }
{}

/// A program begins, within the limits, with just those prefixes of a list of signs that end before its first fault.
pub fn prefixes_begin()
    ensures { PrefixesBegin }
{}

/// A text has one tree, or it has one first fault of its tokens and grammar; never both.
pub fn one_answer()
    ensures { OneAnswer }
{}

/// Parsing a text has one result: two trees are equal, two refusals are equal, and there is never one of each.
pub fn texts_are_parsed_once()
    ensures { TextsAreParsedOnce }
{}

/// At most one name or `~` begins at each byte of a text.
pub fn texts_begin_apart()
    ensures { TextsBeginApart }
{}

/// The tokens of a front have at most one expectation.
pub fn one_expected()
    ensures { OneExpected }
{}

/// A refused text has one noted expectation.
pub fn texts_are_noted_once()
    ensures { TextsAreNotedOnce }
{}
