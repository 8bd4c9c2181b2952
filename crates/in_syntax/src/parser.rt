ghost use Rattle.in_syntax.specs.Expecting.{IsNotedOf};
ghost use Rattle.in_syntax.specs.Programs.{HasTexts, IsParsing};

use crate::expecting::{Expected, expected_in};
use crate::faults::Fault;
use crate::places::Place;
use crate::reader::Reader;
use crate::text_limits::TextLimits;
use crate::tree::Source;
use crate::words::Token;
use std::alloc::Global;

/// The tree of a program: `tokens` are those of the text, in order, and `end` is the place of a program that ends too
/// early. Each name's place is that of a part of the text that is UTF-8.
///
/// The first fault in the order of the tokens is returned:
/// - E02, at the first token that no program continues with, or at `end` if a program only begins so;
/// - E03, at the name of a type, symbol or free name or at the word `rule` past the limits, at the type's name of a symbol's
///   seventeenth auxiliary port, counted over all its classes, or at the first name of a term at depth 201. A term of an equation or of a head has depth 1, an argument one more than its agent.
///
/// The grammar is that of Lafont's language ("Interaction nets", 1990) in this project's own signs; the limits and the equations
/// of rules are this project's own choice. Its other error is running out of memory.
///
/// If the grammar refuses a program, `expected` has the tokens with which one can continue there.
pub fn program(
    alloc: Global,
    limits: TextLimits,
    text: &[u8],
    tokens: &[Token],
    end: Place,
    expected: &mut Expected,
) -> Result<Source, Fault>
    requires { HasTexts text.now tokens.now }
    ensures parsing { IsParsing limits text.now tokens.now end result }
    ensures expected { IsNotedOf limits text.now tokens.now result expected.new }
{
    let mut reader = Reader::new(alloc, limits);
    *expected = expected_in(&reader.state);
    for token in tokens {
        reader.take(alloc, text, *token)?;
        *expected = expected_in(&reader.state);
    }
    reader.finish(end)
}
