ghost use Rattle.std.specs.Prelude.{IfOk};
ghost use Rattle.in_syntax.specs.Expecting.{IsNoted};
ghost use Rattle.in_syntax.specs.Order.{IsWrittenInOrder};
ghost use Rattle.in_syntax.specs.Parsing.{IsOfText, Parses};
ghost use Rattle.in_syntax.specs.Sizes.{IsSized};

use crate::expecting::Expected;
use crate::faults::Fault;
use crate::lexer::tokens_to_end;
use crate::parser::program;
use crate::text_limits::TextLimits;
use crate::tree::Source;
use std::alloc::Global;

/// The tree of a program's text, by these limits. It lists the names and the `~` of each rule and of the net in the order of the text.
///
/// Returns the first fault, the faults of the tokens before those of the grammar:
/// - those of `tokens`, with their places;
/// - E02, at the first token that no program continues with, or at the end of the text if a program only begins so;
/// - E03, at the name of type `MAX_TYPES` + 1, of the first symbol or free name past the limits, at the word `rule` of the first rule
///   past them, at the type's name of a symbol's auxiliary port `MAX_PORTS` + 1, counted over all its classes, or at the first name of a
///   term at depth `MAX_DEPTH` + 1. A term of an equation or of a head
///   has depth 1, an argument one more than its agent. All limits are this project's own choice.
///
/// Its other error is running out of memory. The language is that of Lafont 1990: types, symbols with partitions, rules of two
/// heads, agents and equations between terms, in signs of this project's own choice. So are the equations of a rule, after its heads and the
/// word `with`; elsewhere that word is a name.
pub fn parse(alloc: Global, limits: TextLimits, text: &[u8]) -> Result<Source, Fault>
    ensures tree { Parses limits text.now result }
    ensures of_text { IfOk result IsOfText }
    ensures sized { IfOk result IsSized }
    ensures order { IfOk result IsWrittenInOrder }
{
    let mut expected = Expected::Item;
    parse_expecting(alloc, limits, text, &mut expected)
}

/// The tree of a program's text, or the fault for which `parse` refuses it. If the grammar refuses it, at a token or at its end, `expected` has
/// exactly the tokens with which some program continues there, and the sort of a name there. It has `Nothing` if the text is a program, and isn't
/// changed if `tokens` refuses the text; after running out of memory it may be anything. The sorts are this project's own choice.
pub fn parse_expecting(
    alloc: Global,
    limits: TextLimits,
    text: &[u8],
    expected: &mut Expected,
) -> Result<Source, Fault>
    ensures tree { Parses limits text.now result }
    ensures of_text { IfOk result IsOfText }
    ensures sized { IfOk result IsSized }
    ensures order { IfOk result IsWrittenInOrder }
    ensures expected { IsNoted limits text.now expected.old expected.new result }
{
    let (tokens, end) = tokens_to_end(alloc, limits, text)?;
    program(alloc, limits, text, tokens.as_slice(), end, expected)
}
