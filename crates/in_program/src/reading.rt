ghost use Rattle.std.specs.Prelude.{◌-◌, ◌^◌, ◌<◌};
ghost use Rattle.in_program.specs.Devices.{IsInput};

use in_syntax::{TextIn, TextLimits};
use std::alloc::Global;

/// The result of reading.
#[derive(Drop)]
pub enum Input {
    /// The bytes up to the end; or a prefix that is longer than a text may be.
    Text(Vec<u8>),
    /// A read failed.
    Failed,
    /// Memory for the bytes ran out.
    Memory,
}

/// Reads to the end, or until more bytes came than a text with these limits may have.
pub fn read_text<R: TextIn>(alloc: Global, limits: TextLimits, reader: &mut R) -> Input
    requires { (R.reader reader.old).device.failures < 2 ^ 64 - 1 }
    ensures { IsInput limits (R.reader reader.old) (R.reader reader.new) result }
{
    let most = limits.text_bytes();
    let mut text = Vec::new(alloc);
    let mut buffer = [0u8; 4096];
    // Each turn except the last brings at least one byte, so these are enough.
    for _turn in 0..most + 1 {
        match reader.read(&mut buffer) {
            Err(()) => return Input::Failed,
            Ok(0) => return Input::Text(text),
            Ok(n) => {
                if text.extend_from_slice(&buffer[..n]).is_err() {
                    return Input::Memory;
                }
                if text.len() > most {
                    return Input::Text(text);
                }
            }
        }
    }
    // By now the text has ended, or has more bytes than a text may have.
    unreachable!()
}
