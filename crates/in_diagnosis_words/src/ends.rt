//! The two ends of a wire whose types don't fit.
use crate::declarations::{are_one, arity, is_named, port};
use crate::reports::Report;
use crate::sentences;
use crate::slots::Value;
use crate::words::{Words, letter};
use in_syntax::{Place, Source, SourcePort, SourceSymbol};

/// The owner of an end of a wire.
#[derive(Clone, Copy)]
enum Owner<'a> {
    /// An agent of this symbol, with the port of this number.
    Agent(&'a SourceSymbol, usize),
    /// A head of a rule, with the port of this number.
    Head(&'a SourceSymbol, usize),
    /// The free end of this name.
    Free(&'a str),
}

/// An end of a wire: its place, its owner, and the type of a wire to it.
#[derive(Clone, Copy)]
pub struct ToldEnd<'a> {
    place: Place,
    owner: Owner<'a>,
    port: &'a SourcePort,
    output: bool,
}

/// The end of a wire at the port of that number of the agent at a place of the text. `None` if the symbol has no such port.
pub fn agent_end(symbol: &SourceSymbol, number: usize, place: Place) -> Option<ToldEnd<'_>> {
    let (_, port) = port(symbol, number)?;
    Some(ToldEnd {
        place,
        owner: Owner::Agent(symbol, number),
        port,
        output: port.output,
    })
}

/// An end of a wire in the right member of a rule, which replaces the port of that number of the head at a place of the text. `None` if
/// the symbol has no such port.
pub fn head_end(symbol: &SourceSymbol, number: usize, place: Place) -> Option<ToldEnd<'_>> {
    let (_, port) = port(symbol, number)?;
    Some(ToldEnd {
        place,
        owner: Owner::Head(symbol, number),
        port,
        output: !port.output,
    })
}

/// The end of a wire at the free end of that number, in the order of the net. `None` if there is none of that number.
pub fn free_end(source: &Source, number: u32) -> Option<ToldEnd<'_>> {
    let end = source.net.free.get(number as usize)?;
    Some(ToldEnd {
        place: end.name.place,
        owner: Owner::Free(end.name.text.as_str()),
        port: &end.port,
        output: !end.port.output,
    })
}

/// The word for an output, or for an input.
fn direction(output: bool) -> &'static str {
    if output { "output" } else { "input" }
}

/// Adds the kind of an end, and its place.
fn add_end(report: &mut Report, end: &ToldEnd) {
    let kind = Value::Type(end.port);
    let direction = Value::Text(direction(end.output));
    let (sentence, first) = match end.owner {
        Owner::Agent(symbol, number) => (
            sentences::AGENT_END,
            ("port", Value::Port(symbol, number)),
        ),
        Owner::Head(symbol, number) => (sentences::HEAD_END, ("port", Value::Port(symbol, number))),
        Owner::Free(name) => (sentences::FREE_END, ("name", Value::Text(name))),
    };
    let slots = [first, ("type", kind), ("direction", direction)];
    report.note_with(end.place, sentence, &slots);
}

/// Adds the reason why a wire of these two ends doesn't fit, at a place of the text.
fn add_misfit(report: &mut Report, place: Place, one: &ToldEnd, other: &ToldEnd) {
    let first = Value::Text(one.port.kind.text.as_str());
    let second = Value::Text(other.port.kind.text.as_str());
    let sentence = if !are_of_one_type(one, other) {
        sentences::TWO_TYPES
    } else if one.output {
        sentences::TWO_OUTPUTS
    } else {
        sentences::TWO_INPUTS
    };
    let slots = [("one", first), ("other", second), ("type", first)];
    report.wrong_with(place, sentence, &slots);
}

/// A symbol whose agents have outputs of this type, and the number of their auxiliary ones.
#[derive(Clone, Copy)]
pub struct Giving<'a> {
    symbol: &'a SourceSymbol,
    kind: &'a str,
    auxiliary: usize,
}

/// Whether the port of that number of a symbol is of this type, and an output if `output`, otherwise an input.
fn has_port(symbol: &SourceSymbol, number: usize, kind: &str, output: bool) -> bool {
    match port(symbol, number) {
        Some((_, port)) => port.output == output && is_named(&port.kind, kind),
        None => false,
    }
}

/// Whether the port of that number of a symbol is an output of this type.
fn gives(symbol: &SourceSymbol, kind: &str, number: usize) -> bool {
    has_port(symbol, number, kind, true)
}

/// The number of auxiliary ports of a symbol that are outputs of this type.
fn outputs(symbol: &SourceSymbol, kind: &str) -> usize {
    let mut count: usize = 0;
    for number in 1..=arity(symbol) {
        if gives(symbol, kind, number) {
            count = count.saturating_add(1);
        }
    }
    count
}

/// The outputs of this type that agents of a symbol have.
fn giving_of<'a>(symbol: &'a SourceSymbol, kind: &'a str) -> Giving<'a> {
    Giving {
        symbol,
        kind,
        auxiliary: outputs(symbol, kind),
    }
}

/// The outputs of an agent that may be wanted instead of this end of it, because its term was taken for them: at its principal port, or
/// at an output, of an agent whose principal port is an input and that has an output of the wire's type.
fn result_at<'a>(end: &ToldEnd<'a>) -> Option<Giving<'a>> {
    let Owner::Agent(symbol, number) = end.owner else {
        return None;
    };
    if symbol.port.output || (number > 0 && !end.output) {
        return None;
    }
    let giving = giving_of(symbol, end.port.kind.text.as_str());
    if giving.auxiliary > 0 {
        Some(giving)
    } else {
        None
    }
}

/// The outputs of an agent that may be wanted instead of this end of it: at an auxiliary input, of an agent that has an output of
/// the wire's type at another port.
fn result_beside<'a>(end: &ToldEnd<'a>) -> Option<Giving<'a>> {
    let Owner::Agent(symbol, number) = end.owner else {
        return None;
    };
    if number == 0 || end.output {
        return None;
    }
    let giving = giving_of(symbol, end.port.kind.text.as_str());
    if giving.auxiliary > 0 || gives(symbol, giving.kind, 0) {
        Some(giving)
    } else {
        None
    }
}

/// If an end is an auxiliary output: its agent, and the agent's first auxiliary input of the same type, which may have been meant.
fn input_beside<'a>(end: &ToldEnd<'a>) -> Option<(&'a SourceSymbol, usize)> {
    let Owner::Agent(symbol, number) = end.owner else {
        return None;
    };
    if number == 0 || !end.output {
        return None;
    }
    for number in 1..=arity(symbol) {
        if has_port(symbol, number, end.port.kind.text.as_str(), false) {
            return Some((symbol, number));
        }
    }
    None
}

/// The separator before the next of `count` elements, after the first `told`.
fn separator(told: usize, count: usize) -> &'static str {
    if told == 0 {
        ""
    } else if told.saturating_add(1) == count {
        " and "
    } else {
        ", "
    }
}

impl Giving<'_> {
    /// Whether the port of that number is one of the outputs.
    fn is_at(&self, number: usize) -> bool {
        gives(self.symbol, self.kind, number)
    }

    /// Writes the auxiliary outputs by their numbers.
    fn say_auxiliary(&self, words: &mut Words) {
        words.say(if self.auxiliary > 1 {
            "auxiliary ports "
        } else {
            "auxiliary port "
        });
        let mut told: usize = 0;
        for number in 1..=arity(self.symbol) {
            if self.is_at(number) {
                words.say(separator(told, self.auxiliary));
                words.put(&number);
                told = told.saturating_add(1);
            }
        }
    }

    /// Writes the outputs.
    pub(crate) fn say_outputs(&self, words: &mut Words) {
        if self.is_at(0) {
            words.say("the principal port");
            if self.auxiliary > 0 {
                words.say(" and ");
            }
        }
        if self.auxiliary > 0 {
            self.say_auxiliary(words);
        }
    }

    /// Writes the letters of the outputs, of an agent with a letter for each of its ports.
    pub(crate) fn say_letters(&self, words: &mut Words) {
        let principal: usize = if self.is_at(0) { 1 } else { 0 };
        let count = self.auxiliary.saturating_add(principal);
        let mut told: usize = 0;
        for number in 0..=arity(self.symbol) {
            if self.is_at(number) {
                words.say(separator(told, count));
                words.say("`");
                words.push(letter(number));
                words.say("`");
                told = told.saturating_add(1);
            }
        }
    }
}

/// Adds a sentence on these outputs.
fn help_with_giving(report: &mut Report, sentence: &str, giving: Giving) {
    let slots = [
        ("type", Value::Text(giving.kind)),
        ("symbol", Value::Text(giving.symbol.name.text.as_str())),
        ("ports", Value::Outputs(giving)),
        ("letters", Value::OutputLetters(giving)),
        ("arguments", Value::Letters(1, arity(giving.symbol))),
    ];
    report.help_with(sentence, &slots);
}

/// Adds help if a term is taken for its agent's result.
fn help_with_result(report: &mut Report, giving: Giving) {
    let symbol = giving.symbol;
    let slots = [
        ("symbol", Value::Text(symbol.name.text.as_str())),
        ("type", Value::Text(symbol.port.kind.text.as_str())),
    ];
    report.help_with(sentences::TERM_IS_PRINCIPAL, &slots);
    help_with_giving(report, sentences::TERM_GIVES, giving);
}

/// Adds help if a free end has the wrong sign: its declaration with the other sign.
fn help_with_free_end<'e>(
    report: &mut Report,
    sentence: &str,
    name: &'e str,
    port: &'e SourcePort,
) {
    let slots = [
        ("name", Value::Text(name)),
        ("type", Value::Text(port.kind.text.as_str())),
        ("sign", Value::Text(if port.output { "-" } else { "+" })),
    ];
    report.help_with(sentence, &slots);
}

/// The one of two ends that is a free end, and the port that belongs there; `None` if both are free ends.
fn free_end_of<'a>(one: &ToldEnd<'a>, other: &ToldEnd<'a>) -> Option<(&'a str, &'a SourcePort)> {
    match (one.owner, other.owner) {
        (Owner::Free(_), Owner::Free(_)) => None,
        (Owner::Free(name), _) => Some((name, one.port)),
        (_, Owner::Free(name)) => Some((name, other.port)),
        _ => None,
    }
}

/// The outputs of an agent that may have been meant at one of these ends, if a term there was taken for the result.
fn result_of<'a>(one: &ToldEnd<'a>, other: &ToldEnd<'a>) -> Option<Giving<'a>> {
    match result_at(one) {
        Some(result) => Some(result),
        None => result_at(other),
    }
}

/// The outputs of an agent that may be wanted instead of one of these ends.
fn port_of<'a>(one: &ToldEnd<'a>, other: &ToldEnd<'a>) -> Option<Giving<'a>> {
    match result_beside(one) {
        Some(result) => Some(result),
        None => result_beside(other),
    }
}

/// Adds further help if an auxiliary output of an agent, joined to no principal port, was taken for an auxiliary input.
fn add_input(report: &mut Report, one: &ToldEnd, other: &ToldEnd) {
    if has_principal(one, other) {
        return;
    }
    let Some((symbol, number)) = input_beside(one).or(input_beside(other)) else {
        return;
    };
    let slots = [
        ("symbol", Value::Text(symbol.name.text.as_str())),
        ("type", Value::Text(one.port.kind.text.as_str())),
        ("number", Value::Number(number)),
    ];
    report.help_with(sentences::OR_TAKES, &slots);
}

/// Whether one of these ends is a principal port.
fn has_principal(one: &ToldEnd, other: &ToldEnd) -> bool {
    matches!(one.owner, Owner::Agent(_, 0)) || matches!(other.owner, Owner::Agent(_, 0))
}

/// Adds the outputs of the agent at one of these ends that may be wanted at the other one, a free end. Returns whether there is such a port.
fn add_other_port(report: &mut Report, one: &ToldEnd, other: &ToldEnd) -> bool {
    match (result_of(one, other), port_of(one, other)) {
        (Some(result), _) if has_principal(one, other) => help_with_result(report, result),
        (_, Some(result)) => help_with_giving(report, sentences::SYMBOL_GIVES, result),
        _ => return false,
    }
    true
}

/// Adds help if both ends are outputs of one type, or both inputs: a port of an agent may have been taken for another one, or a free end may have
/// the wrong sign. Returns whether it added any.
fn add_turned(report: &mut Report, one: &ToldEnd, other: &ToldEnd) -> bool {
    match (free_end_of(one, other), result_of(one, other)) {
        (Some((name, port)), _) => {
            let sentence = if add_other_port(report, one, other) {
                sentences::OR_DECLARE_FREE_END
            } else {
                sentences::DECLARE_FREE_END
            };
            help_with_free_end(report, sentence, name, port);
        }
        (None, Some(result)) => {
            if has_principal(one, other) {
                help_with_result(report, result);
            } else {
                help_with_giving(report, sentences::SYMBOL_GIVES, result);
            }
            add_input(report, one, other);
        }
        (None, None) => return false,
    }
    true
}

/// Whether the types of two ends have one name.
fn are_of_one_type(one: &ToldEnd, other: &ToldEnd) -> bool {
    are_one(&one.port.kind, &other.port.kind)
}

/// Adds that the two ends of the wire at a place of the text don't fit: their types differ, or both are outputs or both inputs. Then a note on
/// each end, and help.
pub fn say_ends(report: &mut Report, place: Place, one: &ToldEnd, other: &ToldEnd) {
    add_misfit(report, place, one, other);
    add_end(report, one);
    add_end(report, other);
    if !are_of_one_type(one, other) || !add_turned(report, one, other) {
        report.help(sentences::OUTPUT_TO_INPUT);
    }
}
