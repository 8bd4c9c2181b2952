ghost use Rattle.std.specs.Prelude.{◌≡◌, IfOk, OnErr};
ghost use Rattle.in_c.specs.Giving.{IsGiven};
ghost use Rattle.in_program.specs.Acting.{memory_status, status};
ghost use Rattle.in_program.specs.Lines.{memory_line};

use crate::answers::{Answer, MEMORY};
use std::alloc::AllocError;

const MEMORY_LINE: &[u8] = b"memory\n";

/// Copies the first bytes that fit, and returns the number of all bytes.
fn copy(bytes: &[u8], room: &mut [u8]) -> usize
    ensures { IsGiven bytes.now room.old room.new result }
{
    let count = bytes.len().min(room.len());
    room[..count].copy_from_slice(&bytes[..count]);
    bytes.len()
}

/// Writes an answer into the caller's room, or, when out of memory, the line `memory`. Returns the status.
pub fn give(answer: Result<Answer, AllocError>, room: &mut [u8], length: &mut usize) -> u8
    ensures ok { IfOk answer (λ a. IsGiven a.bytes.items room.old room.new length.new × (a.status ≡ status result)) }
    ensures err { OnErr answer (IsGiven memory_line room.old room.new length.new × (status result ≡ memory_status)) }
{
    match answer {
        Ok(Answer { bytes, status }) => {
            *length = copy(bytes.as_slice(), room);
            status.0
        }
        Err(_) => {
            *length = copy(MEMORY_LINE, room);
            MEMORY.0
        }
    }
}
