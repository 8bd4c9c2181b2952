//! Names that are near to one that isn't declared.
use crate::declarations::Declared;
use crate::reports::Report;
use crate::sentences;
use in_syntax::Name;
use std::alloc::{AllocError, Global};
use strsim::osa_distance;

/// The most characters that may differ in a near name.
const FARTHEST: usize = 3;

/// The most characters that may differ in a name that is near to one of that many characters.
fn most(characters: usize) -> usize {
    (characters / 3).min(FARTHEST)
}

/// The number of characters by which a declared name differs from this one, if it is near to it. Two swapped characters count as one.
pub(crate) fn distance(
    alloc: Global,
    name: &str,
    declared: &str,
) -> Result<Option<usize>, AllocError> {
    if name.eq_ignore_ascii_case(declared) {
        return Ok(Some(0));
    }
    let characters = name.chars().count();
    let others = declared.chars().count();
    let found = osa_distance(alloc, name, declared)?;
    Ok(if found <= most(characters.min(others)) {
        Some(found)
    } else {
        None
    })
}

/// A declared name, and the number of characters by which it differs from another one.
#[derive(Clone, Copy)]
struct Near<'a> {
    name: &'a Name,
    distance: usize,
}

/// Adds a declared name if it is near to this one.
fn find_near<'a>(
    alloc: Global,
    name: &str,
    declared: &'a Name,
    found: &mut Vec<Near<'a>>,
) -> Result<(), AllocError> {
    if let Some(distance) = distance(alloc, name, declared.text.as_str())? {
        found.push(Near {
            name: declared,
            distance,
        })?;
    }
    Ok(())
}

/// The declared names that are near to this one.
fn near_names<'a, D: Declared>(
    alloc: Global,
    name: &str,
    declared: &'a [D],
) -> Result<Vec<Near<'a>>, AllocError> {
    let mut found = Vec::new(alloc);
    for one in declared {
        find_near(alloc, name, one.name(), &mut found)?;
    }
    Ok(found)
}

/// The most near names that are written.
const MOST_TOLD: usize = 4;

/// Asks whether this name was meant, or this one too.
fn add_name(report: &mut Report, name: &Name, further: bool) {
    let sentence = if further {
        sentences::MEANT_NAME_TOO
    } else {
        sentences::MEANT_NAME
    };
    report.note_on(name.place, sentence, name.text.as_str());
    if let Some(place) = report.wrong_place() {
        report.change(place, name.text.as_str());
    }
}

/// Adds the names that differ by `distance` characters, after the first `told`. Returns the number of names now.
fn add_at(report: &mut Report, found: &[Near], distance: usize, told: usize) -> usize {
    let mut count = told;
    for near in found {
        if near.distance == distance && count < MOST_TOLD {
            add_name(report, near.name, count > 0);
            count += 1;
        }
    }
    count
}

/// Adds these names, the nearest first. Returns whether there are any.
fn add_found(report: &mut Report, found: &[Near]) -> bool {
    let mut told = 0;
    for distance in 0..=FARTHEST {
        told = add_at(report, found, distance, told);
    }
    told > 0
}

/// Adds the declared names that are near to this one, the nearest first. Returns whether there are any.
pub(crate) fn add_near<D: Declared>(report: &mut Report, name: &str, declared: &[D]) -> bool {
    match near_names(report.alloc, name, declared) {
        Ok(found) => add_found(report, found.as_slice()),
        Err(error) => {
            report.fail(error);
            false
        }
    }
}
