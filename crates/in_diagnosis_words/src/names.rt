//! Names: declared twice, not declared, with a wrong number of arguments, or in a wrong number of places.
use crate::declarations::{Declared, arity, first_of, is_among, symbol_named};
use crate::near::add_near;
use crate::occurrences::{arguments, names_around, occurrences, rule_around};
use crate::pairs::add_unmet;
use crate::reports::Report;
use crate::sentences;
use crate::single::add_single;
use crate::slots::{Slot, Value};
use in_syntax::{Name, NameUse, Place, Source, SourceSymbol};

/// Adds the fault of the name at a place, by this sentence.
fn wrong_name(report: &mut Report, place: Place, sentence: &str) {
    report.wrong_on(place, sentence, report.at(place));
}

/// Adds a second declaration, and the first one among these.
fn add_second<D: Declared>(report: &mut Report, sentence: &str, declared: &[D], place: Place) {
    wrong_name(report, place, sentence);
    if let Some(first) = first_of(declared, report.at(place)) {
        report.note(first.place, sentences::FIRST_DECLARATION);
    }
    report.help(sentences::RENAME_OR_LEAVE_OUT);
}

/// Adds a free end that is declared twice, or has the name of a symbol.
fn add_second_end(report: &mut Report, source: &Source, place: Place) {
    match symbol_named(source, report.at(place)) {
        Some(symbol) => {
            wrong_name(report, place, sentences::NAME_OF_A_SYMBOL);
            report.note(symbol.name.place, sentences::SYMBOL_IS_HERE);
            report.help(sentences::RENAME_FREE_END);
        }
        None => add_second(
            report,
            sentences::FREE_END_TWICE,
            source.net.free.as_slice(),
            place,
        ),
    }
}

/// Adds a name that is declared twice in its namespace.
pub(crate) fn add_declared_twice(report: &mut Report, source: &Source, place: Place) {
    let types = source.types.as_slice();
    let symbols = source.symbols.as_slice();
    if is_among(types, place) {
        add_second(report, sentences::TYPE_TWICE, types, place);
    } else if is_among(symbols, place) {
        add_second(report, sentences::SYMBOL_TWICE, symbols, place);
    } else {
        add_second_end(report, source, place);
    }
}

/// Adds a type that isn't declared.
pub(crate) fn add_unknown_type(report: &mut Report, source: &Source, place: Place) {
    let name = report.at(place);
    wrong_name(report, place, sentences::UNKNOWN_TYPE);
    if !add_near(report, name, source.types.as_slice()) {
        report.help_on(sentences::DECLARE_TYPE, name);
    }
}

/// Adds a name before brackets that is no symbol.
pub(crate) fn add_unknown_symbol(report: &mut Report, source: &Source, place: Place) {
    wrong_name(report, place, sentences::UNKNOWN_SYMBOL);
    let _ = add_near(report, report.at(place), source.symbols.as_slice());
    report.help(sentences::NAMES_BEFORE_BRACKETS);
}

/// Help for a symbol with that many auxiliary ports.
fn arity_help(ports: usize) -> &'static str {
    if ports == 0 {
        sentences::WITHOUT_BRACKETS
    } else {
        sentences::ONE_ARGUMENT_EACH
    }
}

/// The sentence on the declaration of a symbol with that many auxiliary ports.
fn where_ports_stand(ports: usize) -> &'static str {
    if ports == 0 {
        sentences::WITHOUT_PORTS
    } else {
        sentences::PORTS_STAND_HERE
    }
}

/// A name whose number of arguments isn't the number of its symbol's auxiliary ports.
#[derive(Clone, Copy)]
struct Miscounted<'a> {
    symbol: &'a SourceSymbol,
    name: &'a str,
    arguments: usize,
    place: Place,
}

impl<'a> Miscounted<'a> {
    /// The values for the slots of its sentence.
    fn slots(&self) -> [Slot<'a>; 3] {
        let ports = arity(self.symbol);
        [
            ("name", Value::Text(self.name)),
            (
                "arguments",
                Value::Count(self.arguments, " argument", " arguments"),
            ),
            (
                "ports",
                Value::Count(ports, " auxiliary port", " auxiliary ports"),
            ),
        ]
    }
}

/// Adds a number of arguments of a symbol that is not its arity.
fn add_count(report: &mut Report, symbol: &SourceSymbol, arguments: usize, place: Place) {
    let name = report.at(place);
    let miscounted = Miscounted {
        symbol,
        name,
        arguments,
        place,
    };
    report.wrong_with(place, sentences::OTHER_COUNT, &miscounted.slots());
    let ports = arity(symbol);
    report.note(symbol.name.place, where_ports_stand(ports));
    report.help(arity_help(ports));
}

/// Adds a number of arguments that is not the arity of the symbol, and the place of the symbol's declaration.
fn add_arguments(report: &mut Report, source: &Source, count: Option<usize>, place: Place) {
    match (symbol_named(source, report.at(place)), count) {
        (Some(symbol), Some(count)) => add_count(report, symbol, count, place),
        _ => report.wrong(place, sentences::OTHER_COUNT_UNKNOWN),
    }
}

/// Adds an agent or a head whose number of arguments isn't its symbol's arity.
pub(crate) fn add_other_arity(report: &mut Report, source: &Source, place: Place) {
    match arguments(report.alloc, source, place) {
        Ok(count) => add_arguments(report, source, count, place),
        Err(error) => report.fail(error),
    }
}

/// The first of these names whose number of arguments isn't the number of its symbol's auxiliary ports.
fn first_miscounted<'a>(
    report: &Report<'a>,
    source: &'a Source,
    names: &[NameUse],
) -> Option<Miscounted<'a>> {
    for NameUse {
        place,
        arguments,
        ..
    } in names {
        let name = report.at(*place);
        if let Some(symbol) = symbol_named(source, name) {
            if *arguments != arity(symbol) {
                return Some(Miscounted {
                    symbol,
                    name,
                    arguments: *arguments,
                    place: *place,
                });
            }
        }
    }
    None
}

/// Adds the first of these names that is such a one, and help. Returns whether there is one.
fn add_first_miscounted(report: &mut Report, source: &Source, names: &[NameUse]) -> bool {
    match first_miscounted(report, source, names) {
        Some(name) => {
            report.note_with(name.place, sentences::OTHER_COUNT, &name.slots());
            report.help(arity_help(arity(name.symbol)));
            true
        }
        None => false,
    }
}

/// Adds the first such name of the rule around a place, or of the net's equations: a forgotten term leaves a variable with one occurrence, or a free
/// end with none. Returns whether there is such a name.
fn add_miscounted(report: &mut Report, source: &Source, at: Place) -> bool {
    match names_around(report.alloc, source, at) {
        Ok(names) => add_first_miscounted(report, source, names.as_slice()),
        Err(error) => {
            report.fail(error);
            false
        }
    }
}

/// Adds the places of a variable or a free end before this one.
fn add_earlier(report: &mut Report, places: &[Place], place: Place) {
    for other in places {
        if other.from < place.from {
            report.note(*other, sentences::OCCURS_HERE);
        }
    }
}

/// Help for a variable of this name: this, except for the name `_`, which means nothing in other languages.
fn variable_help(name: &str, help: &'static str) -> &'static str {
    if name == "_" {
        sentences::ERASE_NO_WILDCARD
    } else {
        help
    }
}

/// Adds help if a variable occurs once, and no symbol is near: its rule may be one that is never used, it may be another end of the
/// same wire, or its other end may be a term that is forgotten.
fn help_once(report: &mut Report, source: &Source, name: &str, place: Place) {
    if add_unmet(report, source, place) {
        return;
    }
    if add_single(report, source, place, name, sentences::OCCURS_ONCE_TOO) {
        report.help(sentences::ONE_NAME_FOR_BOTH);
    }
    if !add_miscounted(report, source, place) {
        report.help(variable_help(name, sentences::ERASE));
    }
}

/// Adds a variable that occurs once.
fn add_once(report: &mut Report, source: &Source, name: &str, place: Place) {
    wrong_name(report, place, sentences::OCCURS_ONCE);
    if add_near(report, name, source.symbols.as_slice()) {
        report.help(sentences::NO_SYMBOL_IS_A_VARIABLE);
    } else {
        help_once(report, source, name, place);
    }
}

/// Adds a variable that occurs a third time.
fn add_third(report: &mut Report, name: &str, places: &[Place], place: Place) {
    wrong_name(report, place, sentences::OCCURS_A_THIRD_TIME);
    add_earlier(report, places, place);
    report.help(variable_help(name, sentences::COPY));
}

/// Adds a free end that occurs nowhere in the body, or a second time.
fn add_free(report: &mut Report, source: &Source, declared: &Name, places: &[Place], place: Place) {
    if declared.place.from == place.from {
        wrong_name(report, place, sentences::NOT_JOINED);
        let name = declared.text.as_str();
        let _ = add_single(report, source, place, name, sentences::NO_FREE_END);
        let _ = add_miscounted(report, source, place);
        report.help(sentences::OCCURS_IN_THE_NET);
    } else {
        wrong_name(report, place, sentences::OCCURS_A_SECOND_TIME);
        add_earlier(report, places, place);
        report.help(sentences::ONE_END_OF_ONE_WIRE);
    }
}

/// The free end of this name, if a place is in the net.
fn free_end_at<'a>(source: &'a Source, name: &str, place: Place) -> Option<&'a Name> {
    match rule_around(source, place) {
        Some(_) => None,
        None => first_of(source.net.free.as_slice(), name),
    }
}

/// Adds a variable or a free end that occurs at these places.
fn add_places(report: &mut Report, source: &Source, places: &[Place], place: Place) {
    let name = report.at(place);
    match free_end_at(source, name, place) {
        Some(end) => add_free(report, source, end, places, place),
        None if places.len() < 2 => add_once(report, source, name, place),
        None => add_third(report, name, places, place),
    }
}

/// Adds a variable that doesn't occur twice, or a free end that doesn't occur once.
pub(crate) fn add_occurrences(report: &mut Report, source: &Source, place: Place) {
    let name = report.at(place).as_bytes();
    match occurrences(report.alloc, report.text(), source, place, name) {
        Ok(places) => add_places(report, source, places.as_slice(), place),
        Err(error) => report.fail(error),
    }
}
