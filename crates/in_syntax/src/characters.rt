ghost use Rattle.std.specs.Prelude.{◌≡◌, ◌+◌, ◌^◌, ◌<◌, [], ◌∷◌, MatchOption};
ghost use Rattle.std.specs.Str.{chars};
ghost use Rattle.in_syntax.specs.Characters.{is_blank, begins_name, continues_name};
ghost use Rattle.in_syntax.specs.Places.{past, place_between};
ghost use Rattle.in_syntax.specs.Cursors.{BeginsWith};

use crate::places::Place;
use unicode_ident::{is_xid_continue, is_xid_start};

/// A spot between two characters: how many bytes come before it, its line and its column, both counted from 1.
#[derive(Clone, Copy, Debug, PartialEq, Eq)]
pub struct Spot {
    pub at: u32,
    pub line: u32,
    pub col: u32,
}

/// The beginning of a text.
pub const START: Spot = Spot {
    at: 0,
    line: 1,
    col: 1,
};

impl Spot {
    /// The spot after a character.
    pub fn past(self, c: char) -> Spot
        requires at { self.at + 4 < 2 ^ 32 }
        requires line { self.line + 4 < 2 ^ 32 }
        requires col { self.col + 4 < 2 ^ 32 }
        ensures { result ≡ past self c }
    {
        let at = self.at + c.len_utf8() as u32;
        if c == '\n' {
            Spot {
                at,
                line: self.line + 1,
                col: 1,
            }
        } else {
            Spot {
                at,
                line: self.line,
                col: self.col + 1,
            }
        }
    }

    /// The place from this spot to a later one.
    pub fn place_to(self, end: Spot) -> Place
        ensures { result ≡ place_between self end }
    {
        Place {
            from: self.at,
            to: end.at,
            line: self.line,
            col: self.col,
        }
    }
}

/// The first character, and the text after it.
pub fn first_char(text: &str) -> Option<(char, &str)>
    ensures { MatchOption result (chars text.now ≡ []) (λ r. BeginsWith text.now r.0 r.1.now) }
{
    let mut chars = text.chars();
    let c = chars.next()?;
    Some((c, chars.as_str()))
}

/// Whether the character parts tokens: space, tab, carriage return and line feed.
pub fn is_blank(c: char) -> bool
    ensures { result ≡ is_blank c }
{
    c == ' ' || c == '\t' || c == '\r' || c == '\n'
}

/// Whether a name may begin with the character.
pub fn begins_name(c: char) -> bool
    ensures { result ≡ begins_name c }
{
    is_xid_start(c) || c == '_'
}

/// Whether a name may continue with the character.
pub fn continues_name(c: char) -> bool
    ensures { result ≡ continues_name c }
{
    is_xid_continue(c)
}
