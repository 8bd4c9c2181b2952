// The message on a stream or a file that fails.
use std::alloc::{AllocError, Global};
use std::io::{Error, Write};

/// A device that failed: a standard stream, or a file of this name.
#[derive(Clone, Copy)]
pub enum Device<'a> {
    /// Standard input.
    Input,
    /// Standard output.
    Output,
    /// A file.
    File(&'a str),
}

/// A file's name for a message: each control character is shown as U+FFFD, so the name stays on its line.
pub fn shown(alloc: Global, file: &str) -> Result<String, AllocError> {
    let mut name = String::new(alloc);
    for character in file.chars() {
        name.push(if character.is_control() {
            '\u{FFFD}'
        } else {
            character
        })?;
    }
    Ok(name)
}

/// The message that an action on a device failed, with the reason.
fn failure(alloc: Global, device: Device, done: &str, why: Error) -> Result<String, AllocError> {
    match device {
        Device::Input => format!(in alloc; "error: standard input can't be {done}: {why}\n"),
        Device::Output => format!(in alloc; "error: standard output can't be {done}: {why}\n"),
        Device::File(file) => {
            let name = shown(alloc, file)?;
            format!(in alloc; "error: {name} can't be {done}: {why}\n")
        }
    }
}

/// Writes which operation on a device failed, such as `read`, and the reason. Writes nothing if memory runs out. A failure to write is ignored.
pub fn tell_failure<E: Write>(
    alloc: Global,
    device: Device,
    done: &str,
    why: Error,
    errors: &mut E,
) {
    if let Ok(words) = failure(alloc, device, done, why) {
        let _ = errors.write_all(words.as_bytes());
    }
}
