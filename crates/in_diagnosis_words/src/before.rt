//! The tokens before a place at which the grammar refuses a text, and the one right after it.
use crate::reports::Report;
use in_syntax::{Fault, Place, Token, TokenKind, tokens};
use std::alloc::AllocError;

/// The tokens of a part of the report's text, whose tokens have no fault, so the only error is running out of memory.
fn tokens_of(report: &Report, part: &[u8]) -> Result<Vec<Token>, AllocError> {
    match tokens(report.alloc, report.limits, part) {
        Ok(tokens) => Ok(tokens),
        Err(Fault::Refused(_)) => Ok(Vec::new(report.alloc)),
        Err(Fault::Memory(error)) => Err(error),
    }
}

/// The tokens before a place of a text whose tokens have no fault.
pub(crate) fn tokens_before(report: &Report, place: Place) -> Result<Vec<Token>, AllocError> {
    let front = report.text().get(..place.from as usize).unwrap_or(&[]);
    tokens_of(report, front)
}

/// The kind of the token right after a place of a text whose tokens have no fault.
pub(crate) fn kind_after(report: &Report, place: Place) -> Result<Option<TokenKind>, AllocError> {
    let rest = report.text().get(place.to as usize..).unwrap_or(&[]);
    let tokens = tokens_of(report, rest)?;
    match tokens.first() {
        Some(token) => Ok(Some(token.kind)),
        None => Ok(None),
    }
}

/// The last bracket of these tokens that is not closed among them.
pub(crate) fn open_bracket(tokens: &[Token]) -> Option<Token> {
    let mut closed: usize = 0;
    for token in tokens.iter().rev() {
        match token.kind {
            TokenKind::CloseBrace | TokenKind::CloseParenthesis | TokenKind::CloseBracket => {
                closed = closed.saturating_add(1);
            }
            TokenKind::OpenBrace | TokenKind::OpenParenthesis | TokenKind::OpenBracket => {
                if closed == 0 {
                    return Some(*token);
                }
                closed = closed.saturating_sub(1);
            }
            _ => (),
        }
    }
    None
}

/// The kind of the last of these tokens.
pub(crate) fn last_kind(tokens: &[Token]) -> Option<TokenKind> {
    let token = tokens.last()?;
    Some(token.kind)
}

/// Whether the last two of these tokens begin the declaration of a symbol.
pub(crate) fn begin_symbol(tokens: &[Token]) -> bool {
    let Some(before) = tokens.len().checked_sub(2) else {
        return false;
    };
    match tokens.get(before) {
        Some(token) => token.kind == TokenKind::Symbol,
        None => false,
    }
}

/// Whether these tokens end with a name, right before this byte.
pub(crate) fn end_with_name_at(tokens: &[Token], at: u32) -> bool {
    match tokens.last() {
        Some(token) => token.kind == TokenKind::Name && token.place.to == at,
        None => false,
    }
}

/// The place of the last of these tokens, if it is a name.
pub(crate) fn last_name(tokens: &[Token]) -> Option<Place> {
    let token = tokens.last()?;
    if token.kind == TokenKind::Name {
        Some(token.place)
    } else {
        None
    }
}

/// The place right after the last of these tokens. Only its line and its bytes are shown, so its column is the token's.
pub(crate) fn place_after(tokens: &[Token]) -> Option<Place> {
    let Place { to, line, col, .. } = tokens.last()?.place;
    Some(Place {
        from: to,
        to,
        line,
        col,
    })
}
