ghost use Rattle.std.specs.Prelude.{◌≡◌};

use in_syntax::TextIn;
use std::alloc::Global;

/// A text from another reader, with a copy of it.
#[derive(Drop)]
pub struct KeepingIn<R> {
    reader: R,
    kept: Vec<u8>,
    whole: bool,
}

impl<R> KeepingIn<R> {
    /// The reader, with an empty copy.
    pub fn new(alloc: Global, reader: R) -> KeepingIn<R>
        ensures { result.reader ≡ reader }
    {
        KeepingIn {
            reader,
            kept: Vec::new(alloc),
            whole: true,
        }
    }

    /// The reader of the text.
    pub fn reader(&self) -> &R {
        &self.reader
    }

    /// All bytes read; `None` if memory for a copy ran out.
    pub fn kept(&self) -> Option<&[u8]> {
        if self.whole {
            Some(self.kept.as_slice())
        } else {
            None
        }
    }
}

impl<R: TextIn> TextIn for KeepingIn<R> {
    ghost reader = { λ s. R.reader s.reader };

    fn read(&mut self, into: &mut [u8]) -> Result<usize, ()> {
        let read = self.reader.read(into)?;
        if self.whole {
            self.whole = self.kept.extend_from_slice(&into[..read]).is_ok();
        }
        Ok(read)
    }
}
