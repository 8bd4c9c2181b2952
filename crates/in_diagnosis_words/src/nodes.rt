//! The nodes of a circle, in words: agents, and classes of heads.
use crate::declarations::place_in;
use crate::reports::Report;
use crate::sentences;
use crate::slots::Value;
use crate::words::Words;
use in_syntax::{Place, SourceSymbol};

/// Writes a node and its place: an agent of the symbol, or the class of that number of a head with the symbol.
pub fn say_node_at(words: &mut Words, symbol: &SourceSymbol, class: Option<usize>, place: Place) {
    let sentence = match class {
        Some(_) => sentences::CLASS_AT,
        None => sentences::AGENT_AT,
    };
    let slots = [
        ("class", Value::Number(class.unwrap_or(0))),
        ("symbol", Value::Text(symbol.name.text.as_str())),
        ("place", Value::Spot(place)),
    ];
    words.fill(sentence, &slots);
}

/// A port of a node, by its number at the node: for an agent its place, and for a class of a head its number in the class, from 0.
pub fn port_of(symbol: &SourceSymbol, class: Option<usize>, number: u8) -> Value<'_> {
    match class {
        Some(class) => Value::Port(symbol, place_in(symbol, class, number as usize)),
        None => Value::Port(symbol, number as usize),
    }
}

/// Adds the place of the declaration of a node's symbol, whose braces keep two auxiliary ports of an agent apart, or ports of a class of a head
/// together. A principal port, which is in no braces, gets no note.
pub fn add_braces(
    report: &mut Report,
    symbol: &SourceSymbol,
    class: Option<usize>,
    ports: (u8, u8),
) {
    let place = symbol.name.place;
    match (class, ports) {
        (Some(_), _) => report.note(place, sentences::JOINED_OUTSIDE),
        (None, (0, _) | (_, 0)) => (),
        (None, (first, second)) => {
            let slots = [
                ("one", Value::Port(symbol, first as usize)),
                ("other", Value::Port(symbol, second as usize)),
            ];
            report.note_with(place, sentences::ARE_APART, &slots);
        }
    }
}
