//! Declarations of symbols with other braces.
use crate::declarations::{arity, place_in, port, sign};
use crate::edits::Edit;
use crate::excerpts::is_inside;
use crate::words::Words;
use in_syntax::{Place, Source, SourceSymbol};
use std::alloc::{AllocError, Global};

/// Other braces for the auxiliary ports of a symbol, whose order stays as it is.
#[derive(Clone, Copy, PartialEq, Eq)]
pub enum Braces {
    /// The ports from the one with the first number to the one with the second number are in one pair.
    Together(usize, usize),
    /// The port of this number begins a pair.
    Apart(usize),
    /// Each input is in its own pair, and neighbouring outputs are in one pair.
    Usual,
}

/// Braces with which a circle no longer passes a node by two ports, by their numbers at the node: an agent's ports are put together, and those of
/// a class of a head apart. `None` if one of them is a principal port, which is in no braces.
pub fn changed_braces(
    symbol: &SourceSymbol,
    class: Option<usize>,
    ports: (u8, u8),
) -> Option<Braces> {
    let (first, second) = (ports.0.min(ports.1), ports.0.max(ports.1));
    match class {
        Some(class) => Some(Braces::Apart(place_in(symbol, class, second as usize))),
        None if first == 0 => None,
        None => Some(Braces::Together(first as usize, second as usize)),
    }
}

/// The class of the auxiliary port of that number.
fn class_of(symbol: &SourceSymbol, number: usize) -> usize {
    match port(symbol, number) {
        Some((class, _)) => class,
        None => 0,
    }
}

/// Whether the port of that number is an output.
fn is_output(symbol: &SourceSymbol, number: usize) -> bool {
    match port(symbol, number) {
        Some((_, port)) => port.output,
        None => false,
    }
}

/// Whether the auxiliary port of that number and the one before it are two outputs.
fn joins_outputs(symbol: &SourceSymbol, number: usize) -> bool {
    number > 1 && is_output(symbol, number) && is_output(symbol, number - 1)
}

/// Whether a pair of braces begins with the auxiliary port of that number, which is not the first one, as the symbol is declared.
fn begins_now(symbol: &SourceSymbol, number: usize) -> bool {
    class_of(symbol, number) != class_of(symbol, number.saturating_sub(1))
}

/// The same with other braces.
fn begins(symbol: &SourceSymbol, braces: Braces, number: usize) -> bool {
    match braces {
        Braces::Together(first, last) if first < number && number <= last => false,
        Braces::Apart(at) if at == number => true,
        Braces::Usual => !joins_outputs(symbol, number),
        _ => begins_now(symbol, number),
    }
}

/// Whether some braces put each input of a symbol into its own pair, and all outputs, its principal port among them, into one class:
/// it has no output, one principal output, or neighbouring outputs at auxiliary ports.
pub fn has_usual_braces(symbol: &SourceSymbol) -> bool {
    let mut groups: usize = if symbol.port.output { 1 } else { 0 };
    for number in 1..=arity(symbol) {
        if is_output(symbol, number) && !joins_outputs(symbol, number) {
            groups = groups.saturating_add(1);
        }
    }
    groups <= 1
}

/// Whether a symbol has usual braces and is declared in others.
fn is_unusual(symbol: &SourceSymbol) -> bool {
    if !has_usual_braces(symbol) {
        return false;
    }
    for number in 2..=arity(symbol) {
        if begins_now(symbol, number) == joins_outputs(symbol, number) {
            return true;
        }
    }
    false
}

/// The separator before the auxiliary port of that number.
fn before_port(symbol: &SourceSymbol, braces: Braces, number: usize) -> &'static str {
    if number == 1 {
        " {"
    } else if begins(symbol, braces, number) {
        "} {"
    } else {
        ", "
    }
}

/// Writes the port of that number of a symbol, as it is declared.
fn say_port(words: &mut Words, symbol: &SourceSymbol, number: usize) {
    if let Some((_, port)) = port(symbol, number) {
        words.say(port.kind.text.as_str());
        words.say(sign(port));
    }
}

/// Writes the declaration of a symbol with these braces.
fn say_declaration(words: &mut Words, symbol: &SourceSymbol, braces: Braces) {
    words.say(symbol.name.text.as_str());
    words.say(" : ");
    say_port(words, symbol, 0);
    let ports = arity(symbol);
    for number in 1..=ports {
        words.say(before_port(symbol, braces, number));
        say_port(words, symbol, number);
    }
    words.say(if ports > 0 { "}" } else { "" });
}

/// A change of a text: of the braces of one symbol, or of all symbols that have usual braces and are declared in others.
#[derive(Clone, Copy)]
pub enum Change<'a> {
    One(&'a SourceSymbol, Braces),
    AllUsual,
}

impl Change<'_> {
    /// The braces that a symbol gets; `None` if they stay as they are.
    fn braces_of(&self, symbol: &SourceSymbol) -> Option<Braces> {
        match self {
            Change::One(one, braces) if one.name.place.from == symbol.name.place.from => {
                Some(*braces)
            }
            Change::AllUsual if is_unusual(symbol) => Some(Braces::Usual),
            _ => None,
        }
    }

    /// The number of declarations of a program that it changes.
    pub fn count(&self, source: &Source) -> usize {
        let mut count: usize = 0;
        for symbol in source.symbols.as_slice() {
            if self.braces_of(symbol).is_some() {
                count = count.saturating_add(1);
            }
        }
        count
    }

    /// Its changes of the text of this program, in the order of the text.
    pub fn edits(
        &self,
        alloc: Global,
        text: &[u8],
        source: &Source,
    ) -> Result<Vec<Edit>, AllocError> {
        let mut edits = Vec::new(alloc);
        for symbol in source.symbols.as_slice() {
            if let Some(braces) = self.braces_of(symbol) {
                edits.push(edit_of(alloc, text, symbol, braces)?)?;
            }
        }
        Ok(edits)
    }

    /// Writes the first declarations that it changes, at most `most`, each with the change and on its own line.
    pub fn say(&self, words: &mut Words, source: &Source, most: usize) {
        let mut left = most;
        for symbol in source.symbols.as_slice() {
            if let (Some(braces), true) = (self.braces_of(symbol), left > 0) {
                words.say("\n    symbol ");
                say_declaration(words, symbol, braces);
                words.say(";");
                left -= 1;
            }
        }
    }
}

/// The declaration of a symbol with these braces, without the word `symbol` and the `;`.
pub fn declaration_with(
    alloc: Global,
    symbol: &SourceSymbol,
    braces: Braces,
) -> Result<String, AllocError> {
    let mut words = Words::new(alloc);
    say_declaration(&mut words, symbol, braces);
    words.into_text()
}

/// The end of the declaration of a name: its `;`, which the tree doesn't have. Comments may come before it.
fn declaration_end(text: &[u8], name: Place) -> usize {
    let from = name.from as usize;
    let mut is_comment = false;
    for (index, byte) in text.get(from..).unwrap_or(&[]).iter().enumerate() {
        match *byte {
            b'#' => is_comment = true,
            b'\n' => is_comment = false,
            b';' if !is_comment => return from.saturating_add(index),
            _ => (),
        }
    }
    text.len()
}

/// The change of a text that gives a symbol these braces.
fn edit_of(
    alloc: Global,
    text: &[u8],
    symbol: &SourceSymbol,
    braces: Braces,
) -> Result<Edit, AllocError> {
    let words = declaration_with(alloc, symbol, braces)?;
    Ok(Edit {
        from: symbol.name.place.from as usize,
        to: declaration_end(text, symbol.name.place),
        words,
    })
}

/// The end of a replaced text, and the end of its replacement.
#[derive(Clone, Copy)]
struct Shift {
    before: usize,
    after: usize,
}

/// A text with changes, and the offsets in the text before them.
#[derive(Drop)]
pub struct Changed {
    text: Vec<u8>,
    shifts: Vec<Shift>,
}

impl Changed {
    /// The text.
    pub fn text(&self) -> &[u8] {
        self.text.as_slice()
    }

    /// The offset, before the changes, of the byte at this offset, which no change replaced.
    pub fn before(&self, at: usize) -> usize {
        let mut found = at;
        for shift in self.shifts.as_slice() {
            if shift.after <= at {
                found = shift.before.saturating_add(at - shift.after);
            }
        }
        found
    }

    /// Copies the text from the end of the last replacement up to this byte.
    fn copy(&mut self, text: &[u8], to: usize) -> Result<(), AllocError> {
        let from = match self.shifts.last() {
            Some(shift) => shift.before,
            None => 0,
        };
        self.text
            .extend_from_slice(text.get(from..to).unwrap_or(&[]))?;
        Ok(())
    }

    /// Copies the text up to a change, and adds the change.
    fn replace(&mut self, text: &[u8], edit: &Edit) -> Result<(), AllocError> {
        self.copy(text, edit.from)?;
        self.text.extend_from_slice(edit.words.as_bytes())?;
        self.shifts.push(Shift {
            before: edit.to,
            after: self.text.len(),
        })?;
        Ok(())
    }

    /// Copies the text to its end, with these changes.
    fn fill(&mut self, text: &[u8], edits: &[Edit]) -> Result<(), AllocError> {
        for edit in edits {
            self.replace(text, edit)?;
        }
        self.copy(text, text.len())
    }

    /// The text with these changes, which come in the order of the text.
    pub fn new(alloc: Global, text: &[u8], edits: &[Edit]) -> Result<Changed, AllocError> {
        let mut changed = Changed {
            text: Vec::new(alloc),
            shifts: Vec::new(alloc),
        };
        changed.fill(text, edits)?;
        Ok(changed)
    }
}

/// The place of the character that begins at a byte of a text: its line and its column, both from 1.
pub fn place_at(text: &[u8], at: usize) -> Place {
    let mut from: u32 = 0;
    let mut line: u32 = 1;
    let mut column: u32 = 1;
    for byte in text.get(..at).unwrap_or(text) {
        from = from.saturating_add(1);
        if *byte == b'\n' {
            line = line.saturating_add(1);
            column = 1;
        } else if !is_inside(*byte) {
            column = column.saturating_add(1);
        }
    }
    Place {
        from,
        to: from,
        line,
        col: column,
    }
}
