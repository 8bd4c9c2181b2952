//! The program `inet_export`: writes the program of interaction nets (Lafont 1990) that comes on standard input, or in a file, as data, one JSON
//! object on one line, for other programs. If it is refused, it prints the line of `inet check`.
//!
//! For a refused text `in_program::report` writes that line.
#![tactic(auto)]

ghost use Rattle.std.specs.Prelude.{◌≡◌, ◌⊎◌, ◌-◌, ◌<◌, ◌^◌, false};
ghost use Rattle.in_check.specs.Checking.{IsCertified};
ghost use Rattle.in_check.specs.Programs.{Certified};
ghost use Rattle.in_export.specs.Programs.{program_line};
ghost use Rattle.in_program.specs.Acting.{IsReply, TellsOne, report_action, status};

use in_export::export;
use in_program::{Device, Status, StreamOut, report_text, tell, tell_failure};
use in_syntax::{Fault, TextLimits, TextOut};
use in_version::version_line;
use std::alloc::Global;
use std::env::Args;
use std::io::{ErrorKind, Read, Write};
use std::process::ExitCode;
use std::rt::Files;
use std::{env, fs, io};

const WRITTEN: Status = Status(0);

const WRONG_WORDS: Status = Status(2);

const MEMORY: Status = Status(5);

const FAULT: Status = Status(6);

const MEMORY_LINE: &[u8] = b"memory\n";

const USAGE: &[u8] = b"\
Writes an accepted program as one line of JSON

Usage: inet_export [OPTIONS] [FILE]

Arguments:
  [FILE]  The program's file; without it, or with -, the program comes on standard input

Options:
      --large    Allows larger programs, with texts of up to 64 MiB and nets of up to 1048576 agents
  -h, --help     Print help
  -V, --version  Print version
";

/// The request of the program's words.
#[derive(Drop)]
enum Request {
    /// Writes the line of the program in this file, or on standard input, whose text has these limits.
    Line {
        limits: TextLimits,
        file: Option<String>,
    },
    /// Says how it is called.
    Help,
    /// Says which version it is.
    Version,
}

/// The reason why the words make no request.
enum Usage {
    /// They are wrong.
    Wrong,
    /// Out of memory.
    Memory,
}

/// The request for the line of the program that this word names.
fn asked_of(limits: TextLimits, word: String) -> Result<Request, Usage> {
    match word.as_str() {
        "-" => Ok(Request::Line { limits, file: None }),
        option if option.starts_with('-') => Err(Usage::Wrong),
        _ => Ok(Request::Line {
            limits,
            file: Some(word),
        }),
    }
}

/// The request of one word.
fn asked_by(word: String) -> Result<Request, Usage> {
    match word.as_str() {
        "-h" | "--help" => Ok(Request::Help),
        "-V" | "--version" => Ok(Request::Version),
        "--large" => Ok(Request::Line {
            limits: TextLimits::Large,
            file: None,
        }),
        _ => asked_of(TextLimits::Usual, word),
    }
}

/// The request of two words, one of which is `--large`.
fn asked_by_two(one: String, other: String) -> Result<Request, Usage> {
    if one.as_str() == "--large" {
        asked_of(TextLimits::Large, other)
    } else if other.as_str() == "--large" {
        asked_of(TextLimits::Large, one)
    } else {
        Err(Usage::Wrong)
    }
}

/// The request of these words. The first is the program's name.
fn asked(words: io::Result<Args>) -> Result<Request, Usage> {
    let mut words = match words {
        Ok(words) => words,
        Err(error) if error.kind() == ErrorKind::OutOfMemory => return Err(Usage::Memory),
        Err(_) => return Err(Usage::Wrong),
    };
    let _name = words.next();
    match (words.next(), words.next(), words.next()) {
        (None, ..) => Ok(Request::Line {
            limits: TextLimits::Usual,
            file: None,
        }),
        (Some(word), None, _) => asked_by(word),
        (Some(one), Some(other), None) => asked_by_two(one, other),
        _ => Err(Usage::Wrong),
    }
}

/// Reads to the end, or until more bytes came than a text with these limits may have.
fn read_text<R: Read>(alloc: Global, limits: TextLimits, reader: &mut R) -> io::Result<Vec<u8>> {
    let mut text = Vec::new(alloc);
    let mut buffer = [0u8; 4096];
    // Each turn except the last brings at least one byte, so these are enough.
    for _turn in 0..limits.text_bytes() + 1 {
        let read = reader.read(&mut buffer)?;
        text.extend_from_slice(&buffer[..read])?;
        if read == 0 || text.len() > limits.text_bytes() {
            break;
        }
    }
    Ok(text)
}

/// Writes the line of a text's program, or, if the text is refused, the output of `inet check` on it, or that memory ran out.
fn tell_program<W: TextOut>(
    alloc: Global,
    limits: TextLimits,
    writer: &mut W,
    text: &[u8],
) -> Status
    requires { (W.device writer.old).failures < 2 ^ 64 - 1 }
    ensures { TellsOne (λ lines s. ((c : Certified) × IsCertified limits text.now c × (lines ≡ program_line c) × (s ≡ status 0)) ⊎ IsReply limits (report_action false) text.now lines s) (W.device writer.old) (W.device writer.new) result }
{
    match export(alloc, limits, text) {
        Ok(line) => tell(writer, line.as_slice(), WRITTEN),
        Err(Fault::Refused(_)) => report_text(alloc, limits, writer, false, text),
        Err(Fault::Memory(_)) => tell(writer, MEMORY_LINE, MEMORY),
    }
}

/// Reads a text and writes the line of its program, or the reason why it can't be read from this device.
fn answer<R: Read, W: TextOut, E: Write>(
    alloc: Global,
    limits: TextLimits,
    device: Device,
    reader: &mut R,
    output: &mut W,
    errors: &mut E,
) -> Status
    requires { (W.device output.old).failures < 2 ^ 64 - 1 }
{
    match read_text(alloc, limits, reader) {
        Ok(text) => tell_program(alloc, limits, output, text.as_slice()),
        Err(error) => match error.kind() {
            ErrorKind::OutOfMemory => tell(output, MEMORY_LINE, MEMORY),
            _ => {
                tell_failure(alloc, device, "read", error, errors);
                FAULT
            }
        },
    }
}

/// The same with the text of a file.
fn answer_file<T: Files, W: TextOut, E: Write>(
    rt: &T,
    alloc: Global,
    limits: TextLimits,
    file: &str,
    output: &mut W,
    errors: &mut E,
) -> Status
    requires { (W.device output.old).failures < 2 ^ 64 - 1 }
{
    match fs::open(rt, file) {
        Ok(mut opened) => answer(
            alloc,
            limits,
            Device::File(file),
            &mut opened,
            output,
            errors,
        ),
        Err(error) => match error.kind() {
            ErrorKind::OutOfMemory => tell(output, MEMORY_LINE, MEMORY),
            _ => {
                tell_failure(alloc, Device::File(file), "opened", error, errors);
                FAULT
            }
        },
    }
}

/// Writes the version of the program.
fn tell_version<W: TextOut>(alloc: Global, output: &mut W) -> Status
    requires { (W.device output.old).failures < 2 ^ 64 - 1 }
{
    match version_line(alloc, "inet_export") {
        Ok(line) => tell(output, line.as_bytes(), WRITTEN),
        Err(_) => tell(output, MEMORY_LINE, MEMORY),
    }
}

/// Answers the program's words, or writes its usage; and writes the reason if its output can't be written, unless its reader closed the stream.
fn serve<T: Files, R: Read, W: Write + Drop, E: Write>(
    rt: &T,
    alloc: Global,
    words: io::Result<Args>,
    reader: &mut R,
    writer: W,
    errors: &mut E,
) -> Status {
    let mut output = StreamOut::new(writer);
    let status = match asked(words) {
        Ok(Request::Line { limits, file: None }) => answer(
            alloc,
            limits,
            Device::Input,
            reader,
            &mut output,
            errors,
        ),
        Ok(
            Request::Line {
                limits,
                file: Some(file),
            },
        ) => answer_file(rt, alloc, limits, file.as_str(), &mut output, errors),
        Ok(Request::Help) => tell(&mut output, USAGE, WRITTEN),
        Ok(Request::Version) => tell_version(alloc, &mut output),
        Err(Usage::Memory) => tell(&mut output, MEMORY_LINE, MEMORY),
        Err(Usage::Wrong) => {
            let _ = errors.write_all(USAGE);
            WRONG_WORDS
        }
    };
    if let Some(why) = output.failure() {
        if why.kind() != ErrorKind::BrokenPipe {
            tell_failure(alloc, Device::Output, "written", why, errors);
        }
    }
    status
}

fn main(rt: HostRuntime) -> ExitCode {
    let status = serve(
        &rt,
        rt.alloc(),
        env::args(&rt),
        &mut rt.reader(),
        io::writer(&rt),
        &mut rt.stderr(),
    );
    ExitCode::from(status.0)
}
