//! The printed lines. A sheet keeps until the end that memory ran out, so that code that writes has one exit.
use in_syntax::{Fault, Place, Refusal};
use std::alloc::Global;
use std::fmt::{Debug, Display};
use std::io;

/// The number of bytes that there is memory for from the beginning on.
const ROOM: usize = 65_536;

/// The lines so far.
#[derive(Drop)]
pub struct Sheet {
    pub alloc: Global,
    lines: String,
    is_short: bool,
}

impl Sheet {
    /// No lines yet. The first 65,536 bytes take no more memory, so that tests of calls without memory see only the calls' requests.
    pub fn new(alloc: Global) -> Sheet {
        let mut lines = String::new(alloc);
        let is_short = lines.reserve(ROOM).is_err();
        Sheet {
            alloc,
            lines,
            is_short,
        }
    }

    /// Keeps that memory ran out.
    pub fn fail(&mut self) {
        self.is_short = true;
    }

    /// Whether memory ran out.
    pub fn is_short(&self) -> bool {
        self.is_short
    }

    /// The lines so far.
    pub fn text(&self) -> &str {
        self.lines.as_str()
    }

    /// Writes these words.
    pub fn say(&mut self, words: &str) {
        if self.lines.push_str(words).is_err() {
            self.fail();
        }
    }

    /// Writes a character.
    fn push(&mut self, c: char) {
        if self.lines.push(c).is_err() {
            self.fail();
        }
    }

    /// Writes a number.
    pub fn number(&mut self, number: u64) {
        if write!(self.lines, "{number}").is_err() {
            self.fail();
        }
    }

    /// Writes a value by its `Debug`.
    pub fn show<D: Debug>(&mut self, shown: &D) {
        if write!(self.lines, "{shown:?}").is_err() {
            self.fail();
        }
    }

    /// Writes a value by its `Display`.
    pub fn tell<D: Display>(&mut self, told: &D) {
        if write!(self.lines, "{told}").is_err() {
            self.fail();
        }
    }

    /// Writes these words, with the numbers in the places of the `#`, in their order.
    pub fn fill(&mut self, words: &str, numbers: &[u64]) {
        let mut filled: usize = 0;
        for c in words.chars() {
            if c == '#' {
                self.number(numbers.get(filled).copied().unwrap_or(0));
                filled = filled.saturating_add(1);
            } else {
                self.push(c);
            }
        }
    }

    /// Writes a place: its bytes, its line and its column.
    pub fn add_place(&mut self, place: Place) {
        let numbers = [
            place.from as u64,
            place.to as u64,
            place.line as u64,
            place.col as u64,
        ];
        self.fill(" #..# #:#", &numbers);
    }

    fn add_refusal(&mut self, refusal: &Refusal) {
        self.say("refused ");
        self.show(&refusal.code);
        self.add_place(refusal.place);
        if let Some(place) = refusal.other {
            self.add_place(place);
        }
        self.say("\n");
    }

    /// Adds a line with the reason why a text is refused.
    pub fn add_fault(&mut self, fault: &Fault) {
        match fault {
            Fault::Refused(refusal) => self.add_refusal(refusal),
            Fault::Memory(_) => self.fail(),
        }
    }

    /// Prints the lines, or that memory ran out.
    pub fn print(&self, rt: &impl Print) -> io::Result<()> {
        if self.is_short {
            println!(rt; "memory")
        } else {
            print!(rt; "{}", self.lines)
        }
    }
}
