ghost use Rattle.std.specs.Prelude.{◌≡◌, ◌+◌, ◌<◌, ◌≤◌, List, ℕ, [], ◌∷◌, ◌++◌, true, ◌==◌, length, option_to_list, IfOk, IfErr};
ghost use Rattle.std.specs.Str.{chars};
ghost use Rattle.in_syntax.specs.Characters.{hash, begins_name, continues_name};
ghost use Rattle.in_syntax.specs.Places.{start, past_all, end_place};
ghost use Rattle.in_syntax.specs.Tokens.{beside, word_kind, signs, well_formed, refusal_at, Reads, IsTokensOf, IsTokenFault, StandsIn};
ghost use Rattle.std.specs.List.{AllByRecursion};
ghost use Rattle.in_syntax.specs.TextLimits.{most_bytes};
ghost use Rattle.in_syntax.specs.Cursors.{FirstIs, BeginsSigns, IsWithin, IsRun, IsMove, RefusedBy, IsStopOf};

use crate::characters::{START, Spot, begins_name, continues_name, first_char, is_blank};
use crate::faults::{Code, Fault, Refusal};
use crate::places::Place;
use crate::text_limits::TextLimits;
use crate::words::{Token, TokenKind};
use std::alloc::{AllocError, Global};
use std::str;

/// The longest name, in characters. This project's own choice.
pub const MAX_NAME_CHARACTERS: usize = 64;

/// The token, blank or fault at a spot.
pub enum Move<'a> {
    /// Nothing: the text ends here.
    End,
    /// A token, or a blank or a comment; where it ends, and the text from there on.
    Past(Option<Token>, Spot, &'a str),
    /// A fault, and its place.
    Wrong(Code, Spot),
}

/// A comment, from its `#` to the end of its line.
fn comment(spot: Spot, text: &str) -> Move<'_>
    requires within { IsWithin spot text.now }
    requires first { FirstIs (λ c. c ≡ hash) (chars text.now) }
    ensures { IsMove spot text.now result }
{
    let mut end = spot;
    let mut rest = text;
    while let Some((c, more)) = first_char(rest) {
        if c == '\n' {
            break;
        }
        end = end.past(c);
        rest = more;
    }
    Move::Past(None, end, rest)
}

/// How many characters at the beginning of the text continue a name, the spot after them, and the rest of the text.
fn run(spot: Spot, text: &str) -> (usize, Spot, &str)
    requires { IsWithin spot text.now }
    ensures { (w : List ℕ) × IsRun continues_name spot text.now w (result.0, result.1, result.2.now) }
{
    let mut count = 0;
    let mut end = spot;
    let mut rest = text;
    while let Some((c, more)) = first_char(rest) {
        if !continues_name(c) {
            break;
        }
        count += 1;
        end = end.past(c);
        rest = more;
    }
    (count, end, rest)
}

/// The kind of a word: that of a reserved word, otherwise a name.
fn kind_of_word(word: &str) -> TokenKind
    ensures { result ≡ word_kind (chars word.now) }
{
    match word {
        "type" => TokenKind::Type,
        "symbol" => TokenKind::Symbol,
        "rule" => TokenKind::Rule,
        "net" => TokenKind::Net,
        _ => TokenKind::Name,
    }
}

/// A word, which is not too long.
fn word(spot: Spot, text: &str) -> Move<'_>
    requires within { IsWithin spot text.now }
    requires first { FirstIs (λ c. begins_name c ≡ true) (chars text.now) }
    ensures { IsMove spot text.now result }
{
    let (count, end, rest) = run(spot, text);
    if count > MAX_NAME_CHARACTERS {
        return Move::Wrong(Code::E03, spot);
    }
    let kind = kind_of_word(&text[..text.len() - rest.len()]);
    let place = spot.place_to(end);
    Move::Past(Some(Token { kind, place }), end, rest)
}

/// The kind of a sign of one character.
fn mark_kind(c: char) -> Option<TokenKind>
    ensures { result ≡ beside (c ∷ []) signs }
{
    match c {
        ',' => Some(TokenKind::Comma),
        ';' => Some(TokenKind::Semicolon),
        ':' => Some(TokenKind::Colon),
        '+' => Some(TokenKind::Plus),
        '-' => Some(TokenKind::Minus),
        '{' => Some(TokenKind::OpenBrace),
        '}' => Some(TokenKind::CloseBrace),
        '(' => Some(TokenKind::OpenParenthesis),
        ')' => Some(TokenKind::CloseParenthesis),
        '[' => Some(TokenKind::OpenBracket),
        ']' => Some(TokenKind::CloseBracket),
        '~' => Some(TokenKind::Tilde),
        _ => None,
    }
}

/// A sign at the beginning of the text, or the fault that there is none.
fn sign(spot: Spot, text: &str) -> Move<'_>
    requires within { IsWithin spot text.now }
    requires first { FirstIs BeginsSigns (chars text.now) }
    ensures { IsMove spot text.now result }
{
    let Some((first, rest)) = first_char(text) else {
        return Move::End;
    };
    let end = spot.past(first);
    if let Some(kind) = mark_kind(first) {
        let place = spot.place_to(end);
        return Move::Past(Some(Token { kind, place }), end, rest);
    }
    if first == '>' {
        if let Some((second, rest)) = first_char(rest) {
            if second == '<' {
                let end = end.past(second);
                let kind = TokenKind::Meets;
                let place = spot.place_to(end);
                return Move::Past(Some(Token { kind, place }), end, rest);
            }
        }
    }
    Move::Wrong(Code::E01, spot)
}

/// The token, blank or fault at the beginning of the text, which begins at this spot.
fn next(spot: Spot, text: &str) -> Move<'_>
    requires { IsWithin spot text.now }
    ensures { IsMove spot text.now result }
{
    let Some((first, rest)) = first_char(text) else {
        return Move::End;
    };
    if is_blank(first) {
        Move::Past(None, spot.past(first), rest)
    } else if first == '#' {
        comment(spot, text)
    } else if begins_name(first) {
        word(spot, text)
    } else {
        sign(spot, text)
    }
}

/// A refusal with an empty place.
fn refused(code: Code, spot: Spot) -> Fault
    ensures { result ≡ Fault.Refused (refusal_at code spot) }
{
    Fault::Refused(Refusal::at(code, spot.place_to(spot)))
}

fn keep(tokens: &mut Vec<Token>, token: Option<Token>) -> Result<(), AllocError>
    ensures { IfOk result (λ _. tokens.new.items ≡ tokens.old.items ++ option_to_list token) }
{
    if let Some(token) = token {
        tokens.push(token)?;
    }
    Ok(())
}

/// The tokens of a text that is well-formed and not too long, and the spot after its last character.
fn read(alloc: Global, text: &str) -> Result<(Vec<Token>, Spot), Fault>
    requires { length text.now ≤ most_bytes }
    ensures tokens { IfOk result (λ r. Reads start (chars text.now) r.0.items) }
    ensures end { IfOk result (λ r. r.1 ≡ past_all start (chars text.now)) }
    ensures fault { IfErr result (RefusedBy (IsStopOf (chars text.now))) }
{
    let mut tokens = Vec::new(alloc);
    let mut spot = START;
    let mut rest = text;
    loop {
        match next(spot, rest) {
            Move::End => return Ok((tokens, spot)),
            Move::Past(token, end, more) => {
                keep(&mut tokens, token)?;
                spot = end;
                rest = more;
            }
            Move::Wrong(code, place) => return Err(refused(code, place)),
        }
    }
}

/// The longest front that is well-formed UTF-8.
fn front(text: &[u8]) -> &str
    ensures { result.now ≡ well_formed text.now }
{
    match str::from_utf8(text) {
        Ok(front) => front,
        Err(error) => match str::from_utf8(&text[..error.valid_up_to()]) {
            Ok(front) => front,
            // Up to there the text is well formed, as the error says.
            Err(_) => unreachable!(),
        },
    }
}

/// The tokens of a program's text, as `tokens` returns them, and the place after its last character.
pub fn tokens_to_end(
    alloc: Global,
    limits: TextLimits,
    text: &[u8],
) -> Result<(Vec<Token>, Place), Fault>
    ensures tokens { IfOk result (λ r. IsTokensOf limits text.now r.0.items) }
    ensures end { IfOk result (λ r. r.1 ≡ end_place text.now) }
    ensures fault { IfErr result (RefusedBy (IsTokenFault limits text.now)) }

    // Follows from the first clause.
    ensures texts { IfOk result (λ r. AllByRecursion (StandsIn text.now) r.0.items) }
{
    if text.len() > limits.text_bytes() {
        return Err(refused(Code::E03, START));
    }
    let front = front(text);
    let (tokens, end) = read(alloc, front)?;
    if front.len() < text.len() {
        return Err(refused(Code::E01, end));
    }
    Ok((tokens, end.place_to(end)))
}

/// The tokens of a program's text, in order.
///
/// A text is of UTF-8, of at most `limits.text_bytes()` bytes. Space, tab, carriage return and line feed part tokens, and
/// so does a comment: from a `#` to the end of its line. A token is the longest one that begins at its place. A name
/// begins with a character of Unicode's XID_Start or `_`, and continues with those of XID_Continue; nothing is
/// normalized. All of this is this project's own choice.
///
/// Refused, each with an empty place:
/// - `E03` at the first character: the text is too long. This is checked first.
/// - `E01` at the first character, outside comments, with which no token begins, or at the first byte, also in a
///   comment, at which no well-formed character begins.
/// - `E03` at the first character of a word of more than `MAX_NAME_CHARACTERS` characters.
///
/// Of the last two, the first in the text is returned. The other error is running out of memory.
pub fn tokens(alloc: Global, limits: TextLimits, text: &[u8]) -> Result<Vec<Token>, Fault>
    ensures tokens { IfOk result (λ v. IsTokensOf limits text.now v.items) }
    ensures fault { IfErr result (RefusedBy (IsTokenFault limits text.now)) }

    // Follows from the first clause.
    ensures texts { IfOk result (λ v. AllByRecursion (StandsIn text.now) v.items) }
{
    let (tokens, _end) = tokens_to_end(alloc, limits, text)?;
    Ok(tokens)
}
