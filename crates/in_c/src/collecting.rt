ghost use Rattle.std.specs.Prelude.{◌≡◌, Some, []};

use in_syntax::TextOut;
use std::alloc::Global;

/// A writer that keeps all bytes that it takes. A write fails only when out of memory.
#[derive(Drop)]
pub struct Collected {
    bytes: Vec<u8>,
    failures: u64,
}

impl Collected {
    /// A writer that took nothing yet.
    pub fn new(alloc: Global) -> Collected
        ensures { (result.bytes.items ≡ []) × (result.failures ≡ 0) }
    {
        Collected {
            bytes: Vec::new(alloc),
            failures: 0,
        }
    }

    /// The bytes that it took.
    pub fn into_bytes(self) -> Vec<u8>
        ensures { result ≡ self.bytes }
    {
        let Collected { bytes, failures: _ } = self;
        bytes
    }
}

impl TextOut for Collected {
    ghost device = { λ s. record { bytes = Some s.bytes.items; failures = s.failures } };

    fn write(&mut self, bytes: &[u8]) -> Result<usize, ()> {
        match self.bytes.extend_from_slice(bytes) {
            Ok(()) => Ok(bytes.len()),
            Err(_) => {
                self.failures += 1;
                Err(())
            }
        }
    }
}
