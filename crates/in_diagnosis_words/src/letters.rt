//! Characters with which no token begins.
use crate::excerpts::{front, is_hidden};
use crate::reports::Report;
use crate::sentences;
use crate::slots::Value;
use in_diagnosis_characters::name_of;
use in_syntax::Place;

/// The kind of a character without a name: unassigned, private, or not a character at all.
fn nameless(c: char) -> &'static str {
    match u32::from(c) {
        0xE000..=0xF8FF | 0xF0000..=0xFFFFD | 0x100000..=0x10FFFD => "private-use character",
        0xFDD0..=0xFDEF => "noncharacter",
        number if number % 0x10000 >= 0xFFFE => "noncharacter",
        _ => "unassigned character",
    }
}

/// Whether a character by itself can't be seen in a line.
fn is_blank(c: char) -> bool {
    c.is_control() || c.is_whitespace() || is_hidden(c)
}

/// The sign of the grammar that a character is easily taken for.
fn meant(c: char) -> Option<&'static str> {
    Some(match c {
        '=' | '\u{223C}' | '\u{2248}' | '\u{FF5E}' | '\u{2192}' | '\u{2194}' =>
            sentences::MEANT_TILDE,
        '<' | '>' | '\u{21C4}' | '\u{22C8}' => sentences::MEANT_MEETS,
        '\u{2010}'..='\u{2015}' | '\u{2212}' => sentences::MEANT_INPUT,
        '\u{37E}' | '\u{FF1B}' => sentences::MEANT_SEMICOLON,
        '\u{FF08}' | '\u{FF09}' => sentences::MEANT_PARENTHESES,
        '\u{FF0C}' => sentences::COMMAS,
        _ => return None,
    })
}

/// Help for a text that has these two characters next, after a byte.
fn help_with(before: Option<u8>, first: char, second: Option<char>) -> &'static str {
    match (before, first, second) {
        (_, '=', Some('>')) | (Some(b'-' | b'='), '>', _) | (_, '\u{21D2}', _) =>
            sentences::NO_ARROW,
        _ => help_with_character(first, second),
    }
}

/// Help for a text that has these two characters next, which are no arrow.
fn help_with_character(first: char, second: Option<char>) -> &'static str {
    if let Some(help) = meant(first) {
        return help;
    }
    match (first, second) {
        ('/', Some('/' | '*')) => sentences::COMMENT,
        ('0'..='9', _) => sentences::NUMBERS_ARE_AGENTS,
        ('\u{FEFF}', _) => sentences::NO_BYTE_ORDER_MARK,
        _ if is_blank(first) => sentences::WRITE_A_SPACE,
        _ => sentences::NAMES_AND_COMMENTS,
    }
}

/// The two characters with which some bytes begin.
fn first_two(bytes: &[u8]) -> (Option<char>, Option<char>) {
    let mut chars = front(bytes.get(..8.min(bytes.len())).unwrap_or(bytes)).chars();
    let first = chars.next();
    (first, chars.next())
}

/// The byte before this one.
fn byte_before(text: &[u8], at: usize) -> Option<u8> {
    let byte = text.get(at.checked_sub(1)?)?;
    Some(*byte)
}

/// Adds a character with which no token begins: a hidden one by its number and its name.
fn add_letter(report: &mut Report, place: Place, c: char) {
    let sentence = if is_blank(c) {
        sentences::NO_TOKEN_UNSEEN
    } else {
        sentences::NO_TOKEN
    };
    let slots = [
        ("character", Value::Character(c)),
        ("name", Value::Text(name_of(c).unwrap_or(nameless(c)))),
        ("code", Value::Code(c)),
    ];
    report.wrong_with(place, sentence, &slots);
}

/// Adds the character at the place, or the byte if it is part of none. At the end of the text it adds nothing.
fn add_rest(report: &mut Report, place: Place, rest: &[u8]) {
    match (first_two(rest), rest.first()) {
        ((Some(first), second), _) => {
            add_letter(report, place, first);
            let before = byte_before(report.text(), place.from as usize);
            report.help(help_with(before, first, second));
        }
        ((None, _), Some(byte)) => {
            report.wrong_with(place, sentences::NO_UTF8, &[("byte", Value::Byte(*byte))]);
            report.help(sentences::SAVE_AS_UTF8);
        }
        ((None, _), None) => (),
    }
}

/// Adds that no token begins at this place.
pub(crate) fn add_no_token(report: &mut Report, place: Place) {
    if let Some(rest) = report.text().get(place.from as usize..) {
        add_rest(report, place, rest);
    }
}
