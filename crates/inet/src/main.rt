//! The program `inet`: checks a program of interaction nets (Lafont 1990) that comes on standard input or in a file, and writes one line with its
//! verdict; the steps that build its rules and its net; or the net at the end of its run.
//!
//! It reads the words and calls `in_program::act_watched` over the standard streams, or a file. A reader that keeps a copy of its bytes (`keeping`)
//! gives the text again after a refusal, for the diagnosis (`words`). A watch (`watching`) shows the progress of a long run at a terminal, and counts
//! for figures. The streams keep the reason of a failed read or write, and `serve` writes it.
#![tactic(auto)]

ghost use Rattle.std.specs.Prelude.{◌≡◌, ◌⊎◌, ◌-◌, ◌<◌, ◌^◌, None};
ghost use Rattle.in_program.specs.Acting.{Acts, Tells, fault_status, memory_status, text_limits};
ghost use Rattle.in_program.specs.Lines.{memory_line};
ghost use Rattle.in_syntax.specs.Streams.{Reader};

mod keeping;
mod watching;
mod words;

use crate::keeping::KeepingIn;
use crate::watching::Watching;
use crate::words::{tell_diagnosis, tell_help};
use in_check::Findings;
use in_command_line::{Request, Usage, action_of};
use in_program::{
    Device, Status, StreamIn, StreamOut, act_watched, tell, tell_failure, tell_usage, text_limits,
};
use in_syntax::TextOut;
use in_version::version_line;
use std::alloc::Global;
use std::env::Args;
use std::io::{Error, ErrorKind, IsTerminal, Read, Write};
use std::process::ExitCode;
use std::rt::Files;
use std::thread::Threads;
use std::time::Clock;
use std::{env, fs, io};

/// The status of a read that failed.
const UNREAD: Status = Status(6);

/// The message if the program starts at a terminal without a file.
const AT_TERMINAL: &[u8] =
    b"inet: reads the program from the terminal; end it with Ctrl-D on a line of its own\n";

/// Whether streams are a terminal's, and whether messages have colours.
#[derive(Clone, Copy)]
struct Console {
    /// Standard input.
    reads: bool,
    /// Standard error.
    tells: bool,
    /// Messages on standard error.
    colours: bool,
}

/// The reason why the program's words can't be read: running out of memory, or a word that is not valid UTF-8.
fn unreadable(alloc: Global, error: Error) -> Usage {
    let told = match error.kind() {
        ErrorKind::OutOfMemory => return Usage::Memory,
        ErrorKind::InvalidData => String::from_str(
            alloc,
            "error: a word of the command line is not UTF-8\n",
        ),
        _ => format!(in alloc; "error: the command line can't be read: {error}\n"),
    };
    match told {
        Ok(text) => Usage::Wrong(text),
        Err(_) => Usage::Memory,
    }
}

/// The program's words.
fn words_read(alloc: Global, words: io::Result<Args>) -> Result<Vec<String>, Usage> {
    match words {
        Ok(words) => Ok(words.collect(alloc)?),
        Err(error) => Err(unreadable(alloc, error)),
    }
}

/// Answers the request on the text of this reader, and writes the diagnosis of a refused text, the reason of a failed read, help after a run that
/// stopped early, and the requested figures.
fn answer_text<T: Threads + Clock, R: Read + Drop, W: TextOut, E: Write>(
    rt: &T,
    alloc: Global,
    request: &Request,
    reader: R,
    output: &mut W,
    errors: &mut E,
    console: Console,
) -> Status
    requires { (W.device output.old).failures < 2 ^ 64 - 1 }
    ensures { (r r2 : Reader) × Acts (text_limits request.now.large) request.now.action r r2 (W.device output.old) (W.device output.new) result }
{
    let mut input = KeepingIn::new(alloc, StreamIn::new(reader));
    let mut watch = Watching::new(rt, alloc, &mut *errors, console.tells, request.stats);
    let mut findings = Findings::none();
    let status = act_watched(
        rt,
        alloc,
        text_limits(request),
        &request.action,
        &mut input,
        output,
        &mut watch,
        &mut findings,
    );
    watch.tell();
    if status == Status(1) {
        if let Some(text) = input.kept() {
            tell_diagnosis(
                alloc,
                text_limits(request),
                request.file,
                text,
                &findings,
                console.colours,
                errors,
            );
        }
    }
    if let Some(why) = input.reader().failure() {
        let device = match request.file {
            Some(file) => Device::File(file),
            None => Device::Input,
        };
        tell_failure(alloc, device, "read", why, errors);
    }
    tell_help(alloc, status, &request.action, errors);
    status
}

/// Writes that memory ran out.
fn tell_memory<W: TextOut>(output: &mut W) -> Status
    requires { (W.device output.old).failures < 2 ^ 64 - 1 }
    ensures { Tells (W.device output.old) (W.device output.new) memory_line memory_status result }
{
    tell(output, b"memory\n", Status(5))
}

/// The same with the text of the named file, or of standard input. If the file can't be opened, it writes no line, or that memory ran out.
fn answer<T: Threads + Clock + Files, R: Read + Drop, W: TextOut, E: Write>(
    rt: &T,
    alloc: Global,
    request: &Request,
    reader: R,
    output: &mut W,
    errors: &mut E,
    console: Console,
) -> Status
    requires { (W.device output.old).failures < 2 ^ 64 - 1 }
    ensures input { request.now.file ≡ None → (r r2 : Reader) × Acts (text_limits request.now.large) request.now.action r r2 (W.device output.old) (W.device output.new) result }
    ensures file { ((r r2 : Reader) × Acts (text_limits request.now.large) request.now.action r r2 (W.device output.old) (W.device output.new) result)
        ⊎ (Tells (W.device output.old) (W.device output.new) memory_line memory_status result ⊎ ((W.device output.new ≡ W.device output.old) × (result ≡ fault_status))) }
{
    let Some(file) = request.file else {
        if console.reads {
            let _ = errors.write_all(AT_TERMINAL);
        }
        return answer_text(rt, alloc, request, reader, output, errors, console);
    };
    match fs::open(rt, file) {
        Ok(opened) => answer_text(rt, alloc, request, opened, output, errors, console),
        Err(why) if why.kind() == ErrorKind::OutOfMemory => tell_memory(output),
        Err(why) => {
            tell_failure(alloc, Device::File(file), "opened", why, errors);
            UNREAD
        }
    }
}

/// Writes the version of the program.
fn tell_version<W: TextOut>(alloc: Global, output: &mut W) -> Status
    requires { (W.device output.old).failures < 2 ^ 64 - 1 }
{
    match version_line(alloc, "inet") {
        Ok(line) => tell(output, line.as_bytes(), Status(0)),
        Err(_) => tell_memory(output),
    }
}

/// Writes the help, the version, or the fault of wrong words.
fn tell_nothing_asked<W: TextOut, E: Write>(
    alloc: Global,
    usage: &Usage,
    output: &mut W,
    errors: &mut E,
) -> Status
    requires { (W.device output.old).failures < 2 ^ 64 - 1 }
{
    match usage {
        Usage::Version => tell_version(alloc, output),
        _ => tell_usage(usage, output, &mut StreamOut::new(&mut *errors)),
    }
}

/// Answers the request of these words, or writes the reason why they make none.
fn answer_words<T: Threads + Clock + Files, R: Read + Drop, W: TextOut, E: Write>(
    rt: &T,
    alloc: Global,
    words: &[&str],
    reader: R,
    output: &mut W,
    errors: &mut E,
    console: Console,
) -> Status
    requires { (W.device output.old).failures < 2 ^ 64 - 1 }
{
    match action_of(alloc, words) {
        Ok(request) => answer(rt, alloc, &request, reader, output, errors, console),
        Err(usage) => tell_nothing_asked(alloc, &usage, output, errors),
    }
}

/// Answers the program's words, or writes the reason why they can't be read.
fn answer_program<T: Threads + Clock + Files, R: Read + Drop, W: TextOut, E: Write>(
    rt: &T,
    alloc: Global,
    words: io::Result<Args>,
    reader: R,
    output: &mut W,
    errors: &mut E,
    console: Console,
) -> Status
    requires { (W.device output.old).failures < 2 ^ 64 - 1 }
{
    let words = match words_read(alloc, words) {
        Ok(words) => words,
        Err(usage) => return tell_nothing_asked(alloc, &usage, output, errors),
    };
    match words
        .iter()
        .map(|word| word.as_str())
        .collect::<Vec<&str>>(alloc)
    {
        Ok(words) => answer_words(rt, alloc, words.as_slice(), reader, output, errors, console),
        Err(_) => tell_memory(output),
    }
}

/// The same, and writes the reason if its output can't be written, unless its reader closed the stream.
fn serve<T: Threads + Clock + Files, R: Read + Drop, W: Write + Drop, E: Write>(
    rt: &T,
    alloc: Global,
    words: io::Result<Args>,
    reader: R,
    writer: W,
    errors: &mut E,
    console: Console,
) -> Status {
    let mut output = StreamOut::new(writer);
    let status = answer_program(rt, alloc, words, reader, &mut output, errors, console);
    if let Some(why) = output.failure() {
        if why.kind() != ErrorKind::BrokenPipe {
            tell_failure(alloc, Device::Output, "written", why, errors);
        }
    }
    status
}

/// Whether a variable of the environment is set, and not empty.
fn is_in_environment(rt: &HostRuntime, name: &str) -> bool {
    match env::var(rt, name) {
        Ok(value) => !value.as_str().is_empty(),
        Err(_) => false,
    }
}

fn main(rt: HostRuntime) -> ExitCode {
    let tells = rt.stderr().is_terminal();
    let console = Console {
        reads: rt.stdin().is_terminal(),
        tells,
        colours: tells && !is_in_environment(&rt, "NO_COLOR"),
    };
    let status = serve(
        &rt,
        rt.alloc(),
        env::args(&rt),
        rt.reader(),
        io::writer(&rt),
        &mut rt.stderr(),
        console,
    );
    ExitCode::from(status.0)
}
