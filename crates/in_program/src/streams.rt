ghost use Rattle.std.specs.Prelude.{◌≡◌, None};

use in_syntax::{TextIn, TextOut};
use std::io::{Error, ErrorKind, Read, Write};

/// A text from a stream of the system. Contracts see its failures and no bytes.
#[derive(Drop)]
pub struct StreamIn<R> {
    reader: R,
    ended: bool,
    failures: u64,
    reads: u64,
    failure: Option<Error>,
}

impl<R> StreamIn<R> {
    /// A stream that was not read yet.
    pub fn new(reader: R) -> StreamIn<R>
        ensures { (result.failures ≡ 0) × (result.reads ≡ 0) }
    {
        StreamIn {
            reader,
            ended: false,
            failures: 0,
            reads: 0,
            failure: None,
        }
    }

    /// The reason of the last failed read.
    pub fn failure(&self) -> Option<Error> {
        self.failure
    }
}

impl<R: Read> TextIn for StreamIn<R> {
    ghost reader = { λ s. record { device = record { bytes = None; failures = s.failures }; reads = s.reads; ended = s.ended } };

    fn read(&mut self, into: &mut [u8]) -> Result<usize, ()> {
        self.reads = self.reads.saturating_add(1);
        match self.reader.read(into) {
            Ok(n) => {
                self.ended = n == 0 && !into.is_empty();
                Ok(n)
            }
            Err(error) => {
                self.ended = false;
                self.failures += 1;
                self.failure = Some(error);
                Err(())
            }
        }
    }
}

/// A text to a stream of the system. Contracts see its failures and no bytes.
#[derive(Drop)]
pub struct StreamOut<W> {
    writer: W,
    failures: u64,
    failure: Option<Error>,
}

impl<W> StreamOut<W> {
    /// A stream that hasn't failed yet.
    pub fn new(writer: W) -> StreamOut<W>
        ensures { result.failures ≡ 0 }
    {
        StreamOut {
            writer,
            failures: 0,
            failure: None,
        }
    }

    /// The reason of the last failed write.
    pub fn failure(&self) -> Option<Error> {
        self.failure
    }
}

impl<W: Write> TextOut for StreamOut<W> {
    ghost device = { λ s. record { bytes = None; failures = s.failures } };

    fn write(&mut self, bytes: &[u8]) -> Result<usize, ()> {
        match self.writer.write(bytes) {
            Ok(0) if !bytes.is_empty() => {
                self.failures += 1;
                self.failure = Some(Error::from(ErrorKind::WriteZero));
                Ok(0)
            }
            Ok(n) => Ok(n),
            Err(error) => {
                self.failures += 1;
                self.failure = Some(error);
                Err(())
            }
        }
    }
}
