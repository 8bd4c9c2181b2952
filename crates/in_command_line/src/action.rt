ghost use Rattle.std.specs.Prelude.{codes, ◌≡◌, IfErr, IfOk, false, option_map};
ghost use Rattle.clap.specs.Words.{app_of, found_of, kind_of, new_app, rows_of, rule_of, subcommand_rows_of, with_rule, with_subcommand};
ghost use Rattle.clap.specs.Walk.{texts};
ghost use Rattle.clap.specs.declared.builder.command.Command.TheViews.{out-Command};
ghost use Rattle.in_command_line.specs.Asking.{AreCountsGiven, AreGiven, AsksFor, IsOptionGiven, IsNamed, IsRequested, IsRunNamed, AreWordsRefused, IsErrorTold, asked_of, file_in, is_set, option_for};
ghost use Rattle.in_command_line.specs.CommandLine.{cells_command, command_line, count_option, file_argument, flag, large_flag, limits_command, needs_subcommand, on_file, run_command, tells_version};

use clap::builder::ValueParser;
use clap::error::ErrorKind;
use clap::{Arg, ArgAction, ArgMatches, Command};
use in_arena::CellCounts;
use in_limits::{LEAST_CELLS, Limits, MOST_CELLS, MOST_INTERACTIONS, MOST_WORKERS};
use std::alloc::{AllocError, Global};
use thiserror::Error;

/// The action that the words request. The set of commands is this project's own choice.
#[derive(Clone, Copy, Debug, PartialEq, Eq)]
pub enum Action {
    /// Says whether a program's text is accepted.
    Check,
    /// Prints the steps that build the rules and the net of an accepted program.
    Derive,
    /// Reduces the net of an accepted program within these limits, and prints it.
    Run(Limits),
    /// The same, and prints the number of interactions and the stop, and no net.
    Count(Limits),
}

/// The request that the words make.
#[derive(Clone, Copy, Debug, PartialEq, Eq)]
pub struct Request<'a> {
    /// The action.
    pub action: Action,
    /// The file of the program's text; `None` if it comes on standard input: if no file is named, or `-`.
    pub file: Option<&'a str>,
    /// Whether figures of the run are wanted on standard error.
    pub stats: bool,
    /// Whether the text has the large limits in place of the usual ones.
    pub large: bool,
}

/// The reason why the words name no action.
#[derive(Debug, Drop, Error)]
pub enum Usage {
    /// The words are wrong; the message of `clap`.
    #[error("{0}")]
    Wrong(String),
    /// Help was requested; the text of `clap`.
    #[error("{0}")]
    Help(String),
    /// The version was requested, which the program knows.
    #[error("version")]
    Version,
    /// Out of memory.
    #[error("memory")]
    Memory,
}

impl From<AllocError> for Usage {
    ghost use Rattle.in_command_line.specs.declared.action.Usage.TheVariants.{Memory};

    ghost from_gives = { λ _ usage. usage ≡ Memory };

    fn from(_error: AllocError) -> Usage {
        Usage::Memory
    }
}

/// The argument `FILE`: the file of the program's text.
fn file_argument<'a>(alloc: Global) -> Arg<'a>
    ensures rule { rule_of result ≡ file_argument }
    ensures local { result.global ≡ false }
{
    Arg::new(alloc, "file")
        .value_name("FILE")
        .help("The program's file; without it, or with -, the program comes on standard input")
        .action(ArgAction::Set)
}

/// The option of this name: a number from `least` to `most`, with the usual text if there is one.
fn number_option<'a>(
    alloc: Global,
    name: &'a str,
    help: &'a str,
    least: u64,
    most: u64,
    usual: &'a [&'a str],
) -> Arg<'a>
    ensures rule { rule_of result ≡ record (count_option name.now least most) { defaults = texts usual.now } }
    ensures local { result.global ≡ false }
{
    Arg::new(alloc, name)
        .long(name)
        .value_name("N")
        .help(help)
        .action(ArgAction::Set)
        .value_parser(ValueParser::unsigned(least, most))
        .default_values(usual)
}

/// The flag of this name.
fn flag<'a>(alloc: Global, name: &'a str, help: &'a str) -> Arg<'a>
    ensures rule { rule_of result ≡ flag name.now }
    ensures local { result.global ≡ false }
{
    Arg::new(alloc, name)
        .long(name)
        .help(help)
        .action(ArgAction::SetTrue)
}

/// The flag `--large`.
fn large_flag<'a>(alloc: Global) -> Arg<'a>
    ensures rule { rule_of result ≡ large_flag }
    ensures local { result.global ≡ false }
{
    flag(
        alloc,
        "large",
        "Allows larger programs, with texts of up to 64 MiB and nets of up to 1048576 agents",
    )
}

/// `run` with the numbers of its workers, its interactions and its cells, whose bounds are those of `Limits::new`.
fn cells_command<'a>(alloc: Global) -> Result<Command<'a>, AllocError>
    ensures app { IfOk result (λ c. app_of c ≡ cells_command) }
    ensures local { IfOk result (λ c. (out-Command c).has_globals ≡ false) }
{
    Command::new(alloc, "run")
        .about("Reduces a program's net, and prints it")
        .arg(number_option(
            alloc,
            "workers",
            "The workers that share the interactions, 1 to 64",
            1,
            MOST_WORKERS as u64,
            &["1"],
        ))?
        .arg(number_option(
            alloc,
            "limit",
            "The most interactions, 0 to 1000000000000",
            0,
            MOST_INTERACTIONS,
            &["1000000"],
        ))?
        .arg(number_option(
            alloc,
            "cells",
            "The cells for agents of each size, 16 to 1048576",
            LEAST_CELLS as u64,
            MOST_CELLS as u64,
            &["65536"],
        ))
}

/// .. with those of the cells of each class, by default that of `--cells`, whose bounds are those of `Limits::with_counts`.
fn limits_command<'a>(alloc: Global) -> Result<Command<'a>, AllocError>
    ensures app { IfOk result (λ c. app_of c ≡ limits_command) }
    ensures local { IfOk result (λ c. (out-Command c).has_globals ≡ false) }
{
    cells_command(alloc)?
        .arg(number_option(
            alloc,
            "small-cells",
            "The cells for agents of arity 0 to 2, 16 to 16777216 [default: that of --cells]",
            LEAST_CELLS as u64,
            CellCounts::MOST.small_cells as u64,
            &[],
        ))?
        .arg(number_option(
            alloc,
            "large-cells",
            "The cells for agents of arity 3 to 8, 16 to 8388608 [default: that of --cells]",
            LEAST_CELLS as u64,
            CellCounts::MOST.large_cells as u64,
            &[],
        ))?
        .arg(number_option(
            alloc,
            "wide-cells",
            "The cells for agents of arity 9 to 16, 16 to 8388608 [default: that of --cells]",
            LEAST_CELLS as u64,
            CellCounts::MOST.wide_cells as u64,
            &[],
        ))
}

/// `run` with its options and its file.
fn run_command<'a>(alloc: Global) -> Result<Command<'a>, AllocError>
    ensures app { IfOk result (λ c. app_of c ≡ run_command) }
    ensures local { IfOk result (λ c. (out-Command c).has_globals ≡ false) }
{
    limits_command(alloc)?
        .arg(flag(
            alloc,
            "no-net",
            "Prints no net, only how many interactions there were and why it stopped",
        ))?
        .arg(flag(
            alloc,
            "stats",
            "Prints figures of the run on standard error",
        ))?
        .arg(large_flag(alloc))?
        .arg(file_argument(alloc))
}

/// A command that only has a text: its limits and its file.
fn command_on_file<'a>(
    alloc: Global,
    name: &'a str,
    about: &'a str,
) -> Result<Command<'a>, AllocError>
    ensures app { IfOk result (λ c. app_of c ≡ on_file name.now) }
    ensures local { IfOk result (λ c. (out-Command c).has_globals ≡ false) }
{
    Command::new(alloc, name)
        .about(about)
        .arg(large_flag(alloc))?
        .arg(file_argument(alloc))
}

/// `inet` with its version. One of its subcommands is required.
fn command_alone<'a>(alloc: Global) -> Command<'a>
    ensures { app_of result ≡ tells_version (needs_subcommand (new_app (codes "inet"))) }
{
    Command::new(alloc, "inet")
        .about("Checks and runs programs of interaction nets")
        .subcommand_required(true)
        // Only that there is one counts here: `Usage::Version` has no text of `clap`.
        .version("")
}

/// The same with `check` and `derive`.
fn command_without_run<'a>(alloc: Global) -> Result<Command<'a>, AllocError>
    ensures { IfOk result (λ c. app_of c ≡ with_subcommand (with_subcommand (tells_version (needs_subcommand (new_app (codes "inet")))) (on_file (codes "check")).top) (on_file (codes "derive")).top) }
{
    let check = command_on_file(alloc, "check", "Says whether a program is accepted")?;
    let inet = command_alone(alloc).subcommand(check)?;
    match command_on_file(
        alloc,
        "derive",
        "Prints the steps that build a program's rules and its net",
    ) {
        Ok(derive) => inet.subcommand(derive),
        Err(error) => {
            drop(inet);
            Err(error)
        }
    }
}

/// The command line: `inet` with its subcommands `check`, `derive` and `run`. One of them is required.
fn command<'a>(alloc: Global) -> Result<Command<'a>, AllocError>
    ensures { IfOk result (λ c. app_of c ≡ command_line) }
{
    let inet = command_without_run(alloc)?;
    match run_command(alloc) {
        Ok(run) => inet.subcommand(run),
        Err(error) => {
            drop(inet);
            Err(error)
        }
    }
}

/// The file's name, if it is in the place of a command.
fn file_for_command<'a>(kind: ErrorKind, words: &[&'a str]) -> Option<&'a str> {
    match (kind, words) {
        (ErrorKind::InvalidSubcommand, [_, file]) if file.ends_with(".inet") => Some(*file),
        _ => None,
    }
}

/// The message of `clap` for an error; and a right command, if a file's name is in the place of one.
fn text_of(alloc: Global, error: &clap::Error, words: &[&str]) -> Result<String, AllocError> {
    match file_for_command(error.kind(), words) {
        Some(file) => format!(in alloc;
            "{error}\nA command comes before the file: inet run {file}\n"
        ),
        None => format!(in alloc; "{error}"),
    }
}

/// The usage that reports an error of `clap` in these words.
fn usage_of(alloc: Global, error: clap::Error, words: &[&str]) -> Usage
    ensures { IsErrorTold (kind_of error) result }
{
    match text_of(alloc, &error, words) {
        Ok(text) => match error.kind() {
            ErrorKind::OutOfMemory => Usage::Memory,
            ErrorKind::DisplayHelp => Usage::Help(text),
            ErrorKind::DisplayVersion => Usage::Version,
            _ => Usage::Wrong(text),
        },
        Err(_) => Usage::Memory,
    }
}

/// The number of an option; `None` if it has none of 32 bits.
fn number_of(options: &ArgMatches, name: &str) -> Option<u32>
    ensures { IsOptionGiven name.now (rows_of (found_of options.now)) result }
{
    let number = options.get_one::<u64>(name)?;
    match u32::try_from(number) {
        Ok(number) => Some(number),
        Err(_) => None,
    }
}

/// The number of cells of the class with the option of this name: that of the option, and otherwise that of `--cells`; `None` if it has none of 32
/// bits.
fn count_of(options: &ArgMatches, name: &str) -> Option<u32>
    ensures { IsOptionGiven (option_for name.now (rows_of (found_of options.now))) (rows_of (found_of options.now)) result }
{
    if options.contains_id(name) {
        number_of(options, name)
    } else {
        number_of(options, "cells")
    }
}

/// The number of cells of each class; `None` if one has none of 32 bits.
fn counts_of(options: &ArgMatches) -> Option<CellCounts>
    ensures { AreCountsGiven (rows_of (found_of options.now)) result }
{
    let small_cells = count_of(options, "small-cells")?;
    let large_cells = count_of(options, "large-cells")?;
    let wide_cells = count_of(options, "wide-cells")?;
    Some(CellCounts {
        small_cells,
        large_cells,
        wide_cells,
    })
}

/// The limits of a run; `None` if they are no numbers within their bounds.
fn limits_of(options: &ArgMatches) -> Option<Limits>
    ensures { AreGiven (rows_of (found_of options.now)) result }
{
    let workers = number_of(options, "workers")?;
    let limit = options.get_one::<u64>("limit")?;
    let cells = counts_of(options)?;
    Limits::with_counts(workers, limit, cells)
}

/// Whether a flag is among the words.
fn is_set(options: &ArgMatches, name: &str) -> bool
    ensures { result ≡ is_set name.now (rows_of (found_of options.now)) }
{
    match options.get_str(name) {
        Some(text) => text == "true",
        None => false,
    }
}

/// The file that is named; `None` if it is standard input.
fn file_in<'a>(options: &ArgMatches<'a>) -> Option<&'a str>
    ensures { option_map (λ s. s.now) result ≡ file_in (rows_of (found_of options.now)) }
{
    match options.get_str("file") {
        Some(file) => { if file == "-" { None } else { Some(file) } }
        None => None,
    }
}

/// The run that the options request; `None` if they have no limits.
fn run_named(options: &ArgMatches) -> Option<Action>
    ensures { IsRunNamed (rows_of (found_of options.now)) result }
{
    let limits = limits_of(options)?;
    if is_set(options, "no-net") {
        Some(Action::Count(limits))
    } else {
        Some(Action::Run(limits))
    }
}

/// The action that a subcommand names; `None` if it names none.
fn action_named(name: &str, options: &ArgMatches) -> Option<Action>
    ensures { IsNamed name.now (rows_of (found_of options.now)) result }
{
    match name {
        "check" => Some(Action::Check),
        "derive" => Some(Action::Derive),
        "run" => run_named(options),
        _ => None,
    }
}

/// The request of a match; `None` if it names no action.
fn request_in<'a>(matches: &ArgMatches<'a>) -> Option<Request<'a>>
    ensures { IsRequested (subcommand_rows_of matches.now) result }
{
    let (name, options) = matches.subcommand()?;
    let action = action_named(name, options)?;
    Some(Request {
        action,
        file: file_in(options),
        stats: is_set(options, "stats"),
        large: is_set(options, "large"),
    })
}

/// The request that the words make; the first word is the program's name. It has the subcommand that `clap` gives for them, with the numbers of the
/// texts of its options, or the defaults of missing options, which for the cells of a class is the number of `--cells`; the file that is named, if
/// it isn't `-`; and the flags that are set.
///
/// Refused with the text of `clap` if it finds an error in the words, and one line more if a file's name is in the place of the command: as
/// `Help` for `-h`, `--help` or `help`, as `Version` for `-V` or `--version`, otherwise as `Wrong`, such as for no command, a word too many, or a
/// number that is out of range. Refused as `Memory` when out of memory.
pub fn action_of<'a>(alloc: Global, words: &'a [&'a str]) -> Result<Request<'a>, Usage>
    ensures ok { IfOk result (λ r. AsksFor (texts words.now) (asked_of r)) }
    ensures err { IfErr result (AreWordsRefused (texts words.now)) }
{
    match command(alloc)?.try_get_matches_from(words) {
        Ok(matches) => match request_in(&matches) {
            Some(request) => Ok(request),
            // Words in which `clap` finds no error request an action: see `laws`.
            None => unreachable!(),
        },
        Err(error) => Err(usage_of(alloc, error, words)),
    }
}
