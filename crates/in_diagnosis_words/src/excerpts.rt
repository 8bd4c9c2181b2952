//! A line of a text with a mark under a place in it.
use crate::words::Words;
use in_syntax::Place;
use std::str;

/// The number of characters of a line that are shown before the marked place.
const BEFORE: usize = 48;

/// The number of characters of a line that are shown from the beginning of the marked place on.
const AFTER: usize = 64;

/// In this many bytes there are more characters than are shown before the marked place.
const MOST_BYTES_BEFORE: usize = 4 * (BEFORE + 2);

/// In this many bytes there are more characters than are shown from the beginning of the marked place on.
const MOST_BYTES_AFTER: usize = 4 * (AFTER + 2);

/// The longest front of some bytes that is well-formed UTF-8.
pub(crate) fn front(bytes: &[u8]) -> &str {
    match str::from_utf8(bytes) {
        Ok(text) => text,
        Err(error) => match bytes.get(..error.valid_up_to()) {
            Some(front) => str::from_utf8(front).unwrap_or(""),
            None => "",
        },
    }
}

/// The text from one byte to another.
pub(crate) fn between(text: &[u8], from: usize, to: usize) -> &str {
    match text.get(from..to) {
        Some(bytes) => front(bytes),
        None => "",
    }
}

/// The text at a place.
pub(crate) fn text_at(text: &[u8], place: Place) -> &str {
    between(text, place.from as usize, place.to as usize)
}

/// A part of a line: the text before a place in it, at the place, and after it. A byte at the place that is part of no character is in
/// none of them.
#[derive(Clone, Copy)]
struct Line<'a> {
    before: &'a str,
    marked: &'a str,
    broken: bool,
    after: &'a str,
}

/// Whether a byte continues a character.
pub(crate) fn is_inside(byte: u8) -> bool {
    matches!(byte, 0x80..=0xBF)
}

/// The start of the first character in these bytes.
fn character_start(text: &[u8], from: usize, to: usize) -> usize {
    for index in from..to {
        match text.get(index) {
            Some(byte) if is_inside(*byte) => (),
            _ => return index,
        }
    }
    to
}

/// The start of the line around a byte, or a fixed distance before that byte if the line is longer: a text may be one long line with many places to
/// show.
fn near_start(text: &[u8], at: usize) -> usize {
    for before in 0..at {
        if before == MOST_BYTES_BEFORE {
            break;
        }
        let index = at - before;
        if text.get(index - 1) == Some(&b'\n') {
            return index;
        }
    }
    character_start(text, at.saturating_sub(MOST_BYTES_BEFORE), at)
}

/// The end of the line around a byte, or the byte `most` if the line is longer.
fn near_end(text: &[u8], at: usize, most: usize) -> usize {
    let end = text.len().min(most);
    for index in at..end {
        if text[index] == b'\n' {
            return index;
        }
    }
    end
}

/// The text from one byte to another, without the carriage returns at the end of a line.
fn rest(text: &[u8], from: usize, to: usize) -> &str {
    let words = between(text, from, to);
    match text.get(to) {
        Some(byte) if *byte != b'\n' => words,
        _ => words.trim_end_matches('\r'),
    }
}

/// The line in which a place begins.
fn line_of(text: &[u8], place: Place) -> Line<'_> {
    let (from, last) = (place.from as usize, place.to as usize);
    let end = near_end(text, from, last.saturating_add(MOST_BYTES_AFTER));
    let to = last.min(end);
    let broken = to < end && between(text, to, end).is_empty();
    let after = if broken { to + 1 } else { to };
    Line {
        before: between(text, near_start(text, from), from),
        marked: between(text, from, to),
        broken,
        after: rest(text, after, end),
    }
}

/// The character that replaces one that can't be shown.
const REPLACEMENT: char = '\u{FFFD}';

/// Whether a character is hidden, or turns the direction of the characters after it.
pub(crate) fn is_hidden(c: char) -> bool {
    matches!(c, '\u{AD}' | '\u{200B}'..='\u{200F}' | '\u{2028}'..='\u{202E}' | '\u{2060}'..='\u{206F}' | '\u{FEFF}')
}

/// The shown form of a character: control characters other than tabs would change the screen, and hidden ones would not be seen.
fn shown(c: char) -> char {
    if c != '\t' && (c.is_control() || is_hidden(c)) {
        REPLACEMENT
    } else {
        c
    }
}

/// The character in the line of the mark, below this character of the line: a tab is as wide below a tab.
fn blank(c: char) -> char {
    if c == '\t' { '\t' } else { ' ' }
}

/// Adds the line before the place, or blanks as wide as it if `blanks`, except for its first `hidden` characters.
fn add_before(page: &mut Words, before: &str, hidden: usize, blanks: bool) {
    for c in before.chars().skip(hidden) {
        page.push(if blanks { blank(c) } else { shown(c) });
    }
}

/// Adds at most `most` of these characters. Returns the number of characters that may still come, or `None` if some are left out.
fn add_some(page: &mut Words, text: &str, most: usize) -> Option<usize> {
    let mut left = most;
    for c in text.chars() {
        if left == 0 {
            page.say("...");
            return None;
        }
        left -= 1;
        page.push(shown(c));
    }
    Some(left)
}

/// Adds the marked part and the line after it, as far as there is room.
fn add_rest(page: &mut Words, line: &Line) {
    if let Some(left) = add_some(page, line.marked, AFTER) {
        let _ = add_some(page, line.after, left);
    }
}

/// These words if it holds, otherwise none.
fn where_it_holds(holds: bool, words: &'static str) -> &'static str {
    if holds { words } else { "" }
}

/// Adds the line without its first `hidden` characters.
fn add_line(page: &mut Words, line: &Line, hidden: usize) {
    page.say(where_it_holds(hidden > 0, "..."));
    add_before(page, line.before, hidden, false);
    page.say(where_it_holds(line.broken, "\u{FFFD}"));
    add_rest(page, line);
}

/// Adds the mark under the line.
fn add_mark(page: &mut Words, line: &Line, hidden: usize) {
    page.say(where_it_holds(hidden > 0, "   "));
    add_before(page, line.before, hidden, true);
    for _mark in 0..line.marked.chars().count().clamp(1, AFTER) {
        page.push('^');
    }
}

/// Adds the line in which a place begins, with its number, and a mark under the place; a line that is too long for a screen is cut.
pub(crate) fn add_excerpt(page: &mut Words, text: &[u8], place: Place) {
    let line = line_of(text, place);
    let hidden = line.before.chars().count().saturating_sub(BEFORE);
    let number = place.line;
    page.put(&format_args!("{number:>5} | "));
    add_line(page, &line, hidden);
    page.say("\n      | ");
    add_mark(page, &line, hidden);
    page.say("\n");
}
