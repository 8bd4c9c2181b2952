//! The places of a name in a rule or in the net.
use in_syntax::{NameUse, Place, Source, SourceNet, SourceRule, names_of_body, names_of_rule};
use sqlite_items::Items;
use std::alloc::{AllocError, Global};

/// The byte at which the net's names begin.
fn net_start(net: &SourceNet) -> usize {
    if let Some(end) = net.free.as_slice().first() {
        return end.name.place.from as usize;
    }
    match net.equations.as_slice().first() {
        Some(equation) => equation.left.name.place.from as usize,
        None => usize::MAX,
    }
}

/// The number, from 0, of the rule that contains a byte of the program's text; `None` if the byte is before the first rule or in the net.
pub fn rule_at(source: &Source, at: usize) -> Option<usize> {
    if at >= net_start(&source.net) {
        return None;
    }
    let mut found = None;
    for (number, rule) in source.rules.as_slice().iter().enumerate() {
        if rule.first.name.place.from as usize <= at {
            found = Some(number);
        }
    }
    found
}

/// The rule around a place.
pub(crate) fn rule_around(source: &Source, at: Place) -> Option<&SourceRule> {
    let number = rule_at(source, at.from as usize)?;
    source.rules.as_slice().get(number)
}

/// The names of the rule around a place, or those of the net's equations, in the order of the text.
pub(crate) fn names_around(
    alloc: Global,
    source: &Source,
    at: Place,
) -> Result<Items<NameUse>, AllocError> {
    match rule_around(source, at) {
        Some(rule) => names_of_rule(alloc, rule),
        None => names_of_body(alloc, &source.net),
    }
}

/// The places of a name in the rule around a place, or in the net's equations.
pub(crate) fn occurrences(
    alloc: Global,
    text: &[u8],
    source: &Source,
    at: Place,
    name: &[u8],
) -> Result<Vec<Place>, AllocError> {
    let names = names_around(alloc, source, at)?;
    let mut found = Vec::new(alloc);
    for NameUse { place, .. } in names.as_slice() {
        if text.get(place.from as usize..place.to as usize) == Some(name) {
            found.push(*place)?;
        }
    }
    Ok(found)
}

/// The number of arguments of the name at a place, or of terms if it is a head's; `None` if no name of a rule or of an equation begins
/// there.
pub(crate) fn arguments(
    alloc: Global,
    source: &Source,
    at: Place,
) -> Result<Option<usize>, AllocError> {
    let names = names_around(alloc, source, at)?;
    for NameUse {
        place,
        arguments,
        ..
    } in names.as_slice() {
        if place.from == at.from {
            return Ok(Some(*arguments));
        }
    }
    Ok(None)
}
