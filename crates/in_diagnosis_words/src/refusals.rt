//! The refusals of a text, and those of a program's tree that need no nets.
use crate::closed_wires::add_closed;
use crate::grammar::{add_larger, add_limit, add_too_long, add_unexpected};
use crate::letters::add_no_token;
use crate::names::{
    add_declared_twice, add_occurrences, add_other_arity, add_unknown_symbol, add_unknown_type,
};
use crate::pairs::{add_missing_rule, add_second_rule, add_unmatched};
use crate::reports::Report;
use crate::sentences;
use in_syntax::{Code, Expected, MAX_NAME_CHARACTERS, Place, Refusal, Source};

/// Adds a limit of tokens or of the grammar that is passed.
fn add_limit_of_text(report: &mut Report, place: Place, expected: Expected) {
    let most = report.limits.text_bytes();
    if report.text().len() > most {
        add_too_long(report, place, sentences::LONG_TEXT, most);
        add_larger(report);
    } else if place.from == place.to {
        add_too_long(report, place, sentences::LONG_WORD, MAX_NAME_CHARACTERS);
    } else {
        add_limit(report, place, expected);
    }
}

/// Adds the fault of a text without a tree, and help: a fault of the tokens, or of the grammar, which expects `expected` there.
pub fn add_text_fault(report: &mut Report, refusal: Refusal, expected: Expected) {
    match refusal.code {
        Code::E01 => add_no_token(report, refusal.place),
        Code::E02 => add_unexpected(report, refusal.place, expected),
        _ => add_limit_of_text(report, refusal.place, expected),
    }
}

/// Adds the fault of a name, or of its number of occurrences.
fn add_name_fault(report: &mut Report, source: &Source, code: Code, place: Place) {
    match code {
        Code::E04 => add_declared_twice(report, source, place),
        Code::E05 => add_unknown_type(report, source, place),
        Code::E06 => add_unknown_symbol(report, source, place),
        Code::E07 => add_other_arity(report, source, place),
        _ => add_occurrences(report, source, place),
    }
}

/// Adds the fault of a pair of symbols, or the closed wire.
fn add_pair_fault(report: &mut Report, source: &Source, refusal: Refusal) {
    let Refusal { code, place, other } = refusal;
    match code {
        Code::E09 => add_closed(report, source, place),
        Code::E11 => add_unmatched(report, source, place),
        Code::E14 => add_second_rule(report, source, place),
        _ => add_missing_rule(report, source, place, other),
    }
}

/// Adds the fault of a program with a tree, and help, if the tree shows it: names (E04 to E08), closed wires (E09), and pairs of symbols
/// (E11, E14, E15). It adds nothing for the other codes: those of a text without a tree, and those that need numbers of agents (E03),
/// types of wires (E10) or steps (E12, E13).
pub fn add_tree_fault(report: &mut Report, source: &Source, refusal: Refusal) {
    match refusal.code {
        Code::E04 | Code::E05 | Code::E06 | Code::E07 | Code::E08 => {
            add_name_fault(report, source, refusal.code, refusal.place)
        }
        Code::E09 | Code::E11 | Code::E14 | Code::E15 => { add_pair_fault(report, source, refusal) }
        Code::E01 | Code::E02 | Code::E03 | Code::E10 | Code::E12 | Code::E13 => (),
    }
}
