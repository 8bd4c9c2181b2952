ghost use Rattle.std.specs.Prelude.{◌≡◌, IfOk};
ghost use Rattle.in_syntax.specs.Programs.{IsTextAt, HasText, sign_of, name_at as name_of};

use crate::places::Place;
use crate::text::Text;
use crate::tree::Name;
use crate::words::{Token, TokenKind};
use std::alloc::{AllocError, Global};
use std::str;

/// A token as the grammar sees it: a name with its text and place, a `~` with its place, and the others by their kind.
#[derive(Drop)]
pub enum Sign {
    Named(Name),
    Tilde(Place),
    Plain(TokenKind),
}

/// The sign of a token of this text. Its only error is running out of memory.
pub fn read_sign(alloc: Global, text: &[u8], token: Token) -> Result<Sign, AllocError>
    requires { HasText text.now token.kind token.place }
    ensures { IfOk result (λ s. s ≡ sign_of text.now token) }
{
    match token.kind {
        TokenKind::Name => Ok(Sign::Named(name_at(alloc, text, token.place)?)),
        TokenKind::Tilde => Ok(Sign::Tilde(token.place)),
        kind => Ok(Sign::Plain(kind)),
    }
}

fn name_at(alloc: Global, text: &[u8], place: Place) -> Result<Name, AllocError>
    requires { IsTextAt text.now place }
    ensures { IfOk result (λ n. n ≡ name_of text.now place) }
{
    match str::from_utf8(&text[place.from as usize..place.to as usize]) {
        Ok(text) => Ok(Name {
            text: Text::from_str(alloc, text)?,
            place,
        }),
        // The place of a name cuts no character, by a requirement.
        Err(_) => unreachable!(),
    }
}
