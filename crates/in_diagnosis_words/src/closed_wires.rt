//! Closed wires: equations of bare names that lead back to the first.
use crate::occurrences::rule_around;
use crate::reports::Report;
use crate::sentences;
use in_syntax::{Equation, Place, Source};

/// The two names of an equation of two bare names.
fn bare_names(equation: &Equation) -> Option<(&str, &str)> {
    if equation.left.args.is_empty() && equation.right.args.is_empty() {
        let left = equation.left.name.text.as_str();
        Some((left, equation.right.name.text.as_str()))
    } else {
        None
    }
}

/// Another equation of two bare names that has this name: its number, and its other name.
fn next_equation<'a>(
    equations: &'a [Equation],
    number: usize,
    name: &str,
) -> Option<(usize, &'a str)> {
    for (other, equation) in equations.iter().enumerate() {
        if other != number {
            if let Some((left, right)) = bare_names(equation) {
                if left == name {
                    return Some((other, right));
                }
                if right == name {
                    return Some((other, left));
                }
            }
        }
    }
    None
}

/// The number of the equation whose `~` is at a place.
fn equation_at(equations: &[Equation], place: Place) -> Option<usize> {
    for (number, equation) in equations.iter().enumerate() {
        if equation.tilde.from == place.from {
            return Some(number);
        }
    }
    None
}

/// Adds the other equations of a closed wire.
fn add_ring(report: &mut Report, equations: &[Equation], first: usize, from: &str) {
    let mut name = from;
    let mut number = first;
    for _turn in 0..equations.len().min(8) {
        match next_equation(equations, number, name) {
            Some((next, other)) if next != first => {
                if let Some(equation) = equations.get(next) {
                    report.note(equation.tilde, sentences::GOES_ON_HERE);
                }
                number = next;
                name = other;
            }
            _ => break,
        }
    }
}

/// The number of the equation whose `~` is at a place, and its second name, if it has two bare names.
fn ring_at(equations: &[Equation], place: Place) -> Option<(usize, &str)> {
    let first = equation_at(equations, place)?;
    let (_, name) = bare_names(equations.get(first)?)?;
    Some((first, name))
}

/// The equations around a place: those of a rule, or those of the net.
fn equations_around(source: &Source, place: Place) -> &[Equation] {
    match rule_around(source, place) {
        Some(rule) => rule.equations.as_slice(),
        None => source.net.equations.as_slice(),
    }
}

/// Adds a wire that is joined to itself.
pub(crate) fn add_closed(report: &mut Report, source: &Source, place: Place) {
    report.wrong(place, sentences::CLOSED);
    let equations = equations_around(source, place);
    if let Some((first, name)) = ring_at(equations, place) {
        add_ring(report, equations, first, name);
    }
    report.help(sentences::LEAVE_OUT_OR_JOIN);
}
