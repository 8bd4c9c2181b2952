//! Words that are being written: sentences with slots, and their values.
use crate::declarations::sign;
use crate::slots::{Slot, Value, value_of};
use in_syntax::{Place, SourcePort, SourceSymbol};
use std::alloc::{AllocError, Global};
use std::fmt::Display;

/// Words that are being written. They keep that memory ran out, and `into_text` returns this: so code that writes has one way out.
#[derive(Drop)]
pub struct Words {
    text: String,
    failure: Option<AllocError>,
}

impl Words {
    /// No words yet.
    pub fn new(alloc: Global) -> Words {
        Words {
            text: String::new(alloc),
            failure: None,
        }
    }

    /// Keeps that memory ran out, if it did.
    fn keep(&mut self, done: Result<(), AllocError>) {
        if let Err(error) = done {
            self.failure = Some(error);
        }
    }

    /// Writes these words.
    pub fn say(&mut self, words: &str) {
        let done = self.text.push_str(words);
        self.keep(done);
    }

    /// Writes a character.
    pub(crate) fn push(&mut self, c: char) {
        let done = self.text.push(c);
        self.keep(done);
    }

    /// Writes a value by its `Display`.
    pub(crate) fn put<S: Display>(&mut self, shown: &S) {
        let done = write!(self.text, "{shown}");
        self.keep(done);
    }

    /// Writes a character as a string of JSON has it.
    fn quote_character(&mut self, c: char) {
        match c {
            '"' => self.say("\\\""),
            '\\' => self.say("\\\\"),
            '\u{0}'..='\u{1F}' => self.escape(c),
            _ => self.push(c),
        }
    }

    /// Writes the number of a character as JSON has it.
    fn escape(&mut self, c: char) {
        let number = u32::from(c);
        self.say("\\u");
        self.put(&format_args!("{number:04x}"));
    }

    /// Writes these words as a string of JSON.
    pub(crate) fn quote(&mut self, words: &str) {
        self.say("\"");
        for c in words.chars() {
            self.quote_character(c);
        }
        self.say("\"");
    }

    /// Writes a sentence, with a text in its one slot.
    pub(crate) fn fill_one(&mut self, sentence: &str, text: &str) {
        match sentence.split_once('{') {
            Some((before, after)) => {
                self.say(before);
                self.say(text);
                self.say(after_slot(after));
            }
            None => self.say(sentence),
        }
    }

    /// Writes a sentence, with a value in each of its slots.
    pub fn fill(&mut self, sentence: &str, slots: &[Slot]) {
        let mut rest = sentence;
        for _slot in 0..sentence.len() {
            match rest.split_once('{') {
                Some((before, after)) => {
                    self.say(before);
                    rest = self.fill_slot(after, slots);
                }
                None => break,
            }
        }
        self.say(rest);
    }

    /// Writes the value of a slot, or the brace, if a sentence has this after a `{`. Returns the rest of the sentence.
    fn fill_slot<'w>(&mut self, after: &'w str, slots: &[Slot]) -> &'w str {
        if let Some((name, rest)) = after.split_once('}') {
            if let Some(value) = value_of(slots, name) {
                self.value(value);
                return rest;
            }
        }
        self.say("{");
        after
    }

    /// Writes a value.
    fn value(&mut self, value: Value) {
        match value {
            Value::Text(text) => self.say(text),
            Value::Number(number) => self.put(&number),
            Value::Count(number, one, several) => self.count(number, one, several),
            Value::Character(c) => self.push(c),
            Value::Code(c) => self.code(c),
            Value::Byte(byte) => self.byte(byte),
            _ => self.told(value),
        }
    }

    /// Writes a value that has a part of a program's declarations.
    fn told(&mut self, value: Value) {
        match value {
            Value::Type(port) => self.port_type(port),
            Value::Port(symbol, number) => self.port(symbol, number),
            Value::Letters(first, count) => self.letters(first, count),
            Value::Outputs(giving) => giving.say_outputs(self),
            Value::OutputLetters(giving) => giving.say_letters(self),
            Value::Spot(place) => self.spot(place),
            _ => (),
        }
    }

    /// Writes a byte.
    fn byte(&mut self, byte: u8) {
        self.put(&format_args!("{byte:#04x}"));
    }

    /// Writes a line and a column.
    fn spot(&mut self, place: Place) {
        self.put(&place.line);
        self.say(":");
        self.put(&place.col);
    }

    /// Writes a number and the words after it.
    fn count(&mut self, number: usize, one: &str, several: &str) {
        self.put(&number);
        self.say(if number == 1 { one } else { several });
    }

    /// Writes the number of a character.
    fn code(&mut self, c: char) {
        let number = u32::from(c);
        self.put(&format_args!("U+{number:04X}"));
    }

    /// Writes a port's type, as the text has it.
    fn port_type(&mut self, port: &SourcePort) {
        self.say(port.kind.text.as_str());
        self.say(sign(port));
    }

    /// Writes a port of a symbol.
    fn port(&mut self, symbol: &SourceSymbol, number: usize) {
        if number == 0 {
            self.say("the principal port");
        } else {
            self.say("auxiliary port ");
            self.put(&number);
        }
        self.say(" of `");
        self.say(symbol.name.text.as_str());
        self.say("`");
    }

    /// Writes a letter for each of `count` terms, from letter `first` on.
    fn letters(&mut self, first: usize, count: usize) {
        for number in 0..count {
            self.say(if number > 0 { ", " } else { "" });
            self.push(letter(first.saturating_add(number)));
        }
    }

    /// The words. Refused if memory ran out while they were written.
    pub fn into_text(self) -> Result<String, AllocError> {
        let Words { text, failure } = self;
        match failure {
            None => Ok(text),
            Some(error) => Err(error),
        }
    }
}

/// The text after the slot whose name begins here.
fn after_slot(slot: &str) -> &str {
    match slot.split_once('}') {
        Some((_, after)) => after,
        None => "",
    }
}

/// The letter of this number.
pub(crate) fn letter(number: usize) -> char {
    let letter = number % 26;
    char::from(b'a' + letter as u8)
}
