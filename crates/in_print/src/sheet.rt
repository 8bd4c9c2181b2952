ghost use Rattle.std.specs.Prelude.{◌≡◌, OnOk};
ghost use Rattle.in_print.specs.Points.{point_at};
ghost use Rattle.in_print.specs.Writings.{nothing_written, with_bytes, with_variable};

use crate::numbers::Numbers;
use in_arena::End;
use std::alloc::{AllocError, Global};
use std::marker::Model;

/// A text while it is written, with the wires that were met.
#[derive(Drop)]
pub(crate) struct Sheet {
    bytes: Vec<u8>,
    numbers: Numbers,
}

impl Model for Sheet {
    ghost use Rattle.in_print.specs.Writings.{TextSoFar};

    ghost Value = { TextSoFar };

    ghost view = { λ s. record { bytes = s.bytes.items; met = s.numbers } };
}

impl Sheet {
    pub fn new(alloc: Global) -> Sheet
        ensures { result ≡ nothing_written }
    {
        Sheet {
            bytes: Vec::new(alloc),
            numbers: Numbers::new(alloc),
        }
    }

    pub fn add(&mut self, text: &[u8]) -> Result<(), AllocError>
        ensures { OnOk result (self.new ≡ with_bytes self.old text.now) }
    {
        self.bytes.extend_from_slice(text)
    }

    /// Adds the variable of the wire between these ends.
    pub fn add_variable(&mut self, alloc: Global, end: End, partner: End) -> Result<(), AllocError>
        ensures { OnOk result (self.new ≡ with_variable self.old (point_at end) (point_at partner)) }
    {
        let number = self.numbers.number(end, partner)?;
        let name = format!(in alloc; "v{number}")?;
        self.bytes.extend_from_slice(name.as_bytes())
    }

    pub fn into_bytes(self) -> Vec<u8>
        ensures { result.items ≡ self.bytes }
    {
        self.bytes
    }
}
