//! Variables that occur once in a rule or in the net.
use crate::declarations::{first_of, symbol_named};
use crate::excerpts::text_at;
use crate::near::distance;
use crate::occurrences::{names_around, rule_around};
use crate::reports::Report;
use in_syntax::{NameUse, Place, Source};
use std::alloc::{AllocError, Global};

/// The most variables that are read.
const MOST_LOOKED_AT: usize = 64;

/// The most variables that are written.
const MOST_TOLD: usize = 3;

/// A name that no bracket follows, and its place.
#[derive(Clone, Copy)]
struct Bare<'a> {
    name: &'a str,
    place: Place,
}

/// Whether no bracket follows a name: it is that of a variable, a free end, or an agent without auxiliary ports.
fn is_bare(name: &NameUse) -> bool {
    !name.is_head && name.arguments == 0
}

/// The bare names of the rule around a place, or of the net's equations.
fn bare_names<'a>(
    alloc: Global,
    text: &'a [u8],
    source: &Source,
    at: Place,
) -> Result<Vec<Bare<'a>>, AllocError> {
    let names = names_around(alloc, source, at)?;
    let mut found = Vec::new(alloc);
    for name in names.as_slice() {
        if is_bare(name) {
            let place = name.place;
            let name = text_at(text, place);
            found.push(Bare { name, place })?;
        }
    }
    Ok(found)
}

/// Whether the name of this number differs from that one.
fn differs(sorted: &[Bare], index: Option<usize>, name: &str) -> bool {
    match index {
        Some(index) => match sorted.get(index) {
            Some(other) => other.name != name,
            None => true,
        },
        None => true,
    }
}

/// Whether a name is no symbol's, and, in the net, no free end's.
fn is_variable(source: &Source, at: Place, name: &str) -> bool {
    symbol_named(source, name).is_none()
        && (rule_around(source, at).is_some()
            || first_of(source.net.free.as_slice(), name).is_none())
}

/// The first variables that occur once among sorted names, except for the one at a place.
fn single_variables<'a>(
    alloc: Global,
    source: &Source,
    at: Place,
    sorted: &[Bare<'a>],
) -> Result<Vec<Bare<'a>>, AllocError> {
    let mut single = Vec::new(alloc);
    for (index, bare) in sorted.iter().enumerate() {
        let stands_once = differs(sorted, index.checked_sub(1), bare.name)
            && differs(sorted, Some(index + 1), bare.name);
        let other = bare.place.from != at.from;
        if single.len() < MOST_LOOKED_AT
            && stands_once
            && other
            && is_variable(source, at, bare.name)
        {
            single.push(*bare)?;
        }
    }
    Ok(single)
}

/// The variables that occur once in the rule or net around a place, except for the one at that place, in the order of the text: at most 64.
fn single_in<'a>(
    alloc: Global,
    text: &'a [u8],
    source: &Source,
    at: Place,
) -> Result<Vec<Bare<'a>>, AllocError> {
    let mut names = bare_names(alloc, text, source, at)?;
    names.sort_by_key(|bare| bare.name)?;
    let mut single = single_variables(alloc, source, at, names.as_slice())?;
    single.sort_by_key(|bare| bare.place.from)?;
    Ok(single)
}

/// The wanted variables: those that are near to a name, or the others.
#[derive(Clone, Copy)]
struct Wanted<'a> {
    name: &'a str,
    near: bool,
    sentence: &'static str,
}

/// Adds the wanted variables, after the first `told`. Returns the number of variables now.
fn add_wanted(report: &mut Report, single: &[Bare], wanted: Wanted, told: usize) -> usize {
    let mut count = told;
    for bare in single {
        let near = match distance(report.alloc, wanted.name, bare.name) {
            Ok(found) => found.is_some(),
            Err(error) => {
                report.fail(error);
                false
            }
        };
        if near == wanted.near && count < MOST_TOLD {
            report.note_on(bare.place, wanted.sentence, bare.name);
            count += 1;
        }
    }
    count
}

/// Adds these variables, the near ones first. Returns the number of added ones.
fn add_all(report: &mut Report, single: &[Bare], name: &str, sentence: &'static str) -> usize {
    let near = Wanted {
        name,
        near: true,
        sentence,
    };
    let told = add_wanted(report, single, near, 0);
    add_wanted(
        report,
        single,
        Wanted {
            near: false,
            ..near
        },
        told,
    )
}

/// Adds the variables that occur once in the rule or net around a place, except for the one at the place: those that are near to a name first.
/// Returns whether there are any.
pub(crate) fn add_single(
    report: &mut Report,
    source: &Source,
    at: Place,
    name: &str,
    sentence: &'static str,
) -> bool {
    match single_in(report.alloc, report.text(), source, at) {
        Ok(single) => add_all(report, single.as_slice(), name, sentence) > 0,
        Err(error) => {
            report.fail(error);
            false
        }
    }
}
