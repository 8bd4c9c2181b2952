//! Rules: of heads that can't meet, a second rule for two symbols, and a missing rule.
use crate::declarations::{are_one, arity, port, symbol_named};
use crate::occurrences::rule_around;
use crate::reports::Report;
use crate::sentences;
use crate::slots::Value;
use in_syntax::{Name, Place, Source, SourceRule, SourceSymbol};

/// The rule with a head whose name is at a place.
fn rule_with(source: &Source, place: Place) -> Option<&SourceRule> {
    for rule in source.rules.as_slice() {
        if rule.first.name.place.from == place.from || rule.second.name.place.from == place.from {
            return Some(rule);
        }
    }
    None
}

/// Adds that a symbol is a constructor or a destructor, by its principal port, at its declaration.
fn add_principal(report: &mut Report, symbol: &SourceSymbol) {
    let sentence = if symbol.port.output {
        sentences::CONSTRUCTOR
    } else {
        sentences::DESTRUCTOR
    };
    let slots = [
        ("symbol", Value::Text(symbol.name.text.as_str())),
        ("type", Value::Type(&symbol.port)),
    ];
    report.note_with(symbol.name.place, sentence, &slots);
}

/// Adds the symbol of a head, if it is declared.
fn add_head(report: &mut Report, source: &Source, name: &str) {
    if let Some(symbol) = symbol_named(source, name) {
        add_principal(report, symbol);
    }
}

/// Adds the heads' symbols, if they are declared.
fn add_heads(report: &mut Report, source: &Source, rule: &SourceRule) {
    let first = rule.first.name.text.as_str();
    let second = rule.second.name.text.as_str();
    add_head(report, source, first);
    if first != second {
        add_head(report, source, second);
    }
}

/// Adds heads that can't meet.
pub(crate) fn add_unmatched(report: &mut Report, source: &Source, place: Place) {
    report.wrong(place, sentences::CANNOT_MEET);
    if let Some(rule) = rule_with(source, place) {
        add_heads(report, source, rule);
    }
    report.help(sentences::MEETING);
}

/// Whether two symbols can meet: a constructor and a destructor, with principal ports of one type.
fn can_meet(one: &SourceSymbol, other: &SourceSymbol) -> bool {
    one.port.output != other.port.output && are_one(&one.port.kind, &other.port.kind)
}

/// Whether the symbols of a rule's heads are declared, and can't meet.
fn is_unmet(source: &Source, rule: &SourceRule) -> bool {
    let first = symbol_named(source, rule.first.name.text.as_str());
    let second = symbol_named(source, rule.second.name.text.as_str());
    match (first, second) {
        (Some(first), Some(second)) => !can_meet(first, second),
        _ => false,
    }
}

/// Adds that the heads of the rule around a place can't meet, with help. Returns whether they can't.
pub(crate) fn add_unmet(report: &mut Report, source: &Source, place: Place) -> bool {
    let Some(rule) = rule_around(source, place) else {
        return false;
    };
    if !is_unmet(source, rule) {
        return false;
    }
    report.note(rule.second.name.place, sentences::CANNOT_MEET);
    add_heads(report, source, rule);
    report.help(sentences::MEETING);
    true
}

/// Whether the heads of a rule are of these symbols, in this order.
fn are_of(rule: &SourceRule, first: &Name, second: &Name) -> bool {
    are_one(&rule.first.name, first) && are_one(&rule.second.name, second)
}

/// Whether two rules are for the same two symbols.
fn are_of_one_pair(one: &SourceRule, other: &SourceRule) -> bool {
    are_of(one, &other.first.name, &other.second.name)
        || are_of(one, &other.second.name, &other.first.name)
}

/// The first rule for the two symbols of this one.
fn first_for<'a>(source: &'a Source, rule: &SourceRule) -> Option<&'a SourceRule> {
    for other in source.rules.as_slice() {
        if are_of_one_pair(other, rule) {
            return Some(other);
        }
    }
    None
}

/// Adds a second rule for two symbols: the first one, and the declarations of the symbols.
fn add_second(report: &mut Report, source: &Source, place: Place, rule: &SourceRule) {
    let slots = [
        ("first", Value::Text(rule.first.name.text.as_str())),
        ("second", Value::Text(rule.second.name.text.as_str())),
    ];
    report.wrong_with(place, sentences::SECOND_RULE, &slots);
    if let Some(first) = first_for(source, rule) {
        report.note(first.first.name.place, sentences::FIRST_RULE);
    }
    add_heads(report, source, rule);
    report.help(sentences::KEEP_ONE_RULE);
}

/// Adds a second rule for two symbols.
pub(crate) fn add_second_rule(report: &mut Report, source: &Source, place: Place) {
    match rule_with(source, place) {
        Some(rule) => add_second(report, source, place, rule),
        None => report.wrong(place, sentences::SECOND_RULE_UNKNOWN),
    }
}

/// Adds the rule to write, with variables for its terms.
fn help_rule<'s>(report: &mut Report, constructor: &'s SourceSymbol, destructor: &'s SourceSymbol) {
    let ports = arity(constructor);
    let slots = [
        ("constructor", Value::Text(constructor.name.text.as_str())),
        ("first", Value::Letters(0, ports)),
        ("destructor", Value::Text(destructor.name.text.as_str())),
        ("second", Value::Letters(ports, arity(destructor))),
    ];
    report.help_with(sentences::ADD_RULE, &slots);
}

/// Whether the auxiliary port of a symbol at a place is an output of the type of its principal port.
fn gives_back(symbol: &SourceSymbol, place: usize) -> bool {
    match port(symbol, place) {
        Some((_, port)) => port.output && are_one(&port.kind, &symbol.port.kind),
        None => false,
    }
}

/// Whether a destructor has the ports of an eraser or of a duplicator: no auxiliary port, or two outputs of the type that it takes.
fn erases_or_copies(destructor: &SourceSymbol) -> bool {
    match arity(destructor) {
        0 => true,
        2 => gives_back(destructor, 1) && gives_back(destructor, 2),
        _ => false,
    }
}

/// Adds two symbols that can meet and have no rule.
fn add_gap<'s>(report: &mut Report, place: Place, one: &'s SourceSymbol, other: &'s SourceSymbol) {
    let (constructor, destructor) = if one.port.output {
        (one, other)
    } else {
        (other, one)
    };
    let slots = [
        ("constructor", Value::Text(constructor.name.text.as_str())),
        ("destructor", Value::Text(destructor.name.text.as_str())),
    ];
    report.wrong_with(place, sentences::NO_RULE, &slots);
    add_principal(report, constructor);
    add_principal(report, destructor);
    help_rule(report, constructor, destructor);
    if erases_or_copies(destructor) {
        report.help(sentences::COPIES_ARE_WRITTEN);
    }
}

/// The symbol whose name is at a place, if there is one and it is declared.
fn symbol_at<'a>(
    report: &Report,
    source: &'a Source,
    place: Option<Place>,
) -> Option<&'a SourceSymbol> {
    match place {
        Some(place) => symbol_named(source, report.at(place)),
        None => None,
    }
}

/// Adds two symbols that can meet and have no rule, at the places of their declarations.
pub(crate) fn add_missing_rule(
    report: &mut Report,
    source: &Source,
    place: Place,
    earlier: Option<Place>,
) {
    let one = symbol_at(report, source, Some(place));
    let other = symbol_at(report, source, earlier);
    match (one, other) {
        (Some(one), Some(other)) => add_gap(report, place, one, other),
        _ => report.wrong(place, sentences::NO_RULE_UNKNOWN),
    }
}
