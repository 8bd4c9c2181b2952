//! The parts of a diagnosis as data: members of a JSON object.
use crate::edits::Edit;
use crate::excerpts::is_inside;
use crate::reports::{Kind, Remark, Remedy};
use crate::words::Words;
use in_syntax::Place;

/// The number of characters that begin before a byte of a text.
fn characters_before(text: &[u8], at: usize) -> usize {
    let mut count: usize = 0;
    for byte in text.get(..at).unwrap_or(text) {
        if !is_inside(*byte) {
            count = count.saturating_add(1);
        }
    }
    count
}

/// Adds two numbers, as elements of a list.
fn add_two(page: &mut Words, one: usize, other: usize) {
    page.put(&one);
    page.say(",");
    page.put(&other);
}

/// Adds the start and the end of a range of the text, in bytes and in characters, as two members.
fn add_range(page: &mut Words, text: &[u8], from: usize, to: usize) {
    let first = characters_before(text, from);
    let last = characters_before(text, to);
    page.say("\"bytes\":[");
    add_two(page, from, to);
    page.say("],\"characters\":[");
    add_two(page, first, last);
    page.say("]");
}

/// Adds a place of the text, as an object.
fn add_place(page: &mut Words, text: &[u8], place: Place) {
    let (line, column) = (place.line, place.col);
    page.say("{\"line\":");
    page.put(&line);
    page.say(",\"column\":");
    page.put(&column);
    page.say(",");
    add_range(page, text, place.from as usize, place.to as usize);
    page.say("}");
}

/// Adds a place, or `null` if there is none.
fn add_some_place(page: &mut Words, text: &[u8], place: Option<Place>) {
    match place {
        Some(place) => add_place(page, text, place),
        None => page.say("null"),
    }
}

/// Adds a change of the text, as an object.
fn add_change(page: &mut Words, text: &[u8], edit: &Edit) {
    page.say("{");
    add_range(page, text, edit.from, edit.to);
    page.say(",\"words\":");
    page.quote(edit.words.as_str());
    page.say("}");
}

/// The separator before the next element of a list that has `count` so far.
fn comma(count: usize) -> &'static str {
    if count > 0 { "," } else { "" }
}

/// Adds the changes of the part of this number. Returns their count, and whether the program is accepted with them.
fn add_changes(page: &mut Words, text: &[u8], remedies: &[Remedy], number: usize) -> (usize, bool) {
    let mut count: usize = 0;
    let mut accepted = false;
    for remedy in remedies {
        if remedy.part == number {
            page.say(comma(count));
            add_change(page, text, &remedy.edit);
            accepted = remedy.accepted;
            count = count.saturating_add(1);
        }
    }
    (count, accepted)
}

/// Whether the part of this number has a remedy.
fn has_remedy(remedies: &[Remedy], number: usize) -> bool {
    for remedy in remedies {
        if remedy.part == number {
            return true;
        }
    }
    false
}

/// Adds the remedy of the part of this number, as an object.
fn add_remedy(page: &mut Words, text: &[u8], remedies: &[Remedy], number: usize) {
    page.say("{\"changes\":[");
    let (_, accepted) = add_changes(page, text, remedies, number);
    page.say("],\"accepted\":");
    page.say(if accepted { "true}" } else { "false}" });
}

/// Adds the remedy of the part of this number, or `null` if it has none.
fn add_some_remedy(page: &mut Words, text: &[u8], remedies: &[Remedy], number: usize) {
    if has_remedy(remedies, number) {
        add_remedy(page, text, remedies, number);
    } else {
        page.say("null");
    }
}

/// Adds the part of this number, as an object.
fn add_part(page: &mut Words, text: &[u8], part: &Remark, remedies: &[Remedy], number: usize) {
    page.say("{\"message\":");
    page.quote(part.sentence.as_str());
    page.say(",\"place\":");
    add_some_place(page, text, part.place);
    page.say(",\"remedy\":");
    add_some_remedy(page, text, remedies, number);
    page.say("}");
}

/// Adds the parts of a kind, each after its comma.
fn add_all(page: &mut Words, text: &[u8], parts: &[Remark], remedies: &[Remedy], kind: Kind) {
    let mut count: usize = 0;
    for (number, part) in parts.iter().enumerate() {
        if part.kind == kind {
            page.say(comma(count));
            add_part(page, text, part, remedies, number);
            count = count.saturating_add(1);
        }
    }
}

/// Adds the parts of a diagnosis as three members: the error, its notes, and the help; and the object's end.
pub(crate) fn add_parts(page: &mut Words, text: &[u8], parts: &[Remark], remedies: &[Remedy]) {
    page.say("\"errors\":[");
    add_all(page, text, parts, remedies, Kind::Error);
    page.say("],\"notes\":[");
    add_all(page, text, parts, remedies, Kind::Note);
    page.say("],\"helps\":[");
    add_all(page, text, parts, remedies, Kind::Help);
    page.say("]}\n");
}
