use in_arena::CellCounts;
use in_check::Findings;
use in_command_line::Action;
use in_diagnosis::diagnosis_of;
use in_limits::{Limits, MOST_CELLS, MOST_INTERACTIONS};
use in_program::{Status, shown};
use in_syntax::{Place, Refusal, TextLimits};
use std::alloc::{AllocError, Global};
use std::io::Write;

/// A colour of a terminal, in bold.
#[derive(Clone, Copy)]
enum Colour {
    Red,
    Green,
    Blue,
    Cyan,
}

/// The characters that end a colour.
const PLAIN: &str = "\x1b[0m";

/// The characters that begin a colour.
fn code(colour: Colour) -> &'static str {
    match colour {
        Colour::Red => "\x1b[1;31m",
        Colour::Green => "\x1b[1;32m",
        Colour::Blue => "\x1b[1;34m",
        Colour::Cyan => "\x1b[1;36m",
    }
}

/// The line with the file of a refused text, and the place there.
fn head(alloc: Global, file: &str, refusal: Refusal) -> Result<String, AllocError> {
    let Place { line, col, .. } = refusal.place;
    let name = shown(alloc, file)?;
    format!(in alloc; " --> {name}:{line}:{col}\n")
}

/// The colour of a line's first part and the end of that part, if it has one; `mark` is the colour of marks below an excerpt.
fn coloured_part(line: &str, mark: Colour) -> Option<(Colour, usize)> {
    if line.starts_with("error:") {
        Some((Colour::Red, 6))
    } else if line.starts_with("note:") {
        Some((Colour::Cyan, 5))
    } else if line.starts_with("help:") {
        Some((Colour::Green, 5))
    } else if line.starts_with(" -->") {
        Some((Colour::Blue, 4))
    } else if line.trim_start().starts_with('|') {
        Some((mark, line.len()))
    } else {
        None
    }
}

/// Adds a line in its colours.
fn add_coloured(
    words: &mut String,
    line: &str,
    colour: Colour,
    end: usize,
) -> Result<(), AllocError> {
    words.push_str(code(colour))?;
    words.push_str(line.get(..end).unwrap_or(""))?;
    words.push_str(PLAIN)?;
    words.push_str(line.get(end..).unwrap_or(""))
}

/// The coloured words: the kind of a line, and the marks below excerpts.
pub fn in_colours(alloc: Global, words: &str) -> Result<String, AllocError> {
    let mut told = String::new(alloc);
    let mut mark = Colour::Red;
    for line in words.lines() {
        match coloured_part(line, mark) {
            Some((colour, end)) => {
                add_coloured(&mut told, line, colour, end)?;
                if line.starts_with("note:") {
                    mark = Colour::Cyan;
                }
            }
            None => told.push_str(line)?,
        }
        told.push('\n')?;
    }
    Ok(told)
}

/// The diagnosis of a refused text, for people, after a line with its file.
fn told(
    alloc: Global,
    limits: TextLimits,
    file: Option<&str>,
    text: &[u8],
    findings: &Findings,
    colours: bool,
) -> Result<String, AllocError> {
    let mut words = match (file, findings.refusal()) {
        (Some(file), Some(refusal)) => head(alloc, file, refusal)?,
        _ => String::new(alloc),
    };
    if let Some(diagnosis) = diagnosis_of(alloc, limits, text, findings)? {
        words.push_str(diagnosis.as_str())?;
    }
    if colours {
        in_colours(alloc, words.as_str())
    } else {
        Ok(words)
    }
}

/// Writes the diagnosis of a refused text. If memory runs out, or it can't be written, nothing is added.
pub fn tell_diagnosis<E: Write>(
    alloc: Global,
    limits: TextLimits,
    file: Option<&str>,
    text: &[u8],
    findings: &Findings,
    colours: bool,
    errors: &mut E,
) {
    if let Ok(words) = told(alloc, limits, file, text, findings, colours) {
        let _ = errors.write_all(words.as_bytes());
    }
}

/// The limits of a run.
fn limits_in(action: &Action) -> Option<Limits> {
    match action {
        Action::Check | Action::Derive => None,
        Action::Run(limits) | Action::Count(limits) => Some(*limits),
    }
}

/// Help after a run with these cells that had too few of a size: if it had as many of each and more are allowed, the option for all, and otherwise
/// those for each size.
fn help_with_cells(alloc: Global, cells: CellCounts) -> Result<String, AllocError> {
    let CellCounts {
        small_cells: small,
        large_cells: large,
        wide_cells: wide,
    } = CellCounts::MOST;
    if cells == CellCounts::MOST {
        format!(in alloc;
            "help: no run may have more than {small} small, {large} large and {wide} wide cells\n"
        )
    } else if cells == CellCounts::each(cells.small_cells) && cells.small_cells < MOST_CELLS {
        format!(in alloc; "help: `--cells N` gives more cells of each size, up to {MOST_CELLS}\n")
    } else {
        format!(in alloc;
            "help: `--small-cells N`, `--large-cells N` and `--wide-cells N` give more cells of a size, up to {small}, {large} and {wide}\n"
        )
    }
}

/// Help after a run that stopped with this status.
fn help(alloc: Global, status: Status, limits: Limits) -> Result<Option<String>, AllocError> {
    match status {
        Status(3) if limits.limit() == MOST_INTERACTIONS => Ok(Some(format!(in alloc;
            "help: no run may have more interactions than {MOST_INTERACTIONS}\n"
        )?)),
        Status(3) => Ok(Some(format!(in alloc;
            "help: `--limit N` allows more interactions, up to {MOST_INTERACTIONS}\n"
        )?)),
        Status(4) => Ok(Some(help_with_cells(alloc, limits.cells())?)),
        _ => Ok(None),
    }
}

/// Writes help after a run that stopped at its limit, or for lack of cells. If memory runs out, or it can't be written, nothing is added.
pub fn tell_help<E: Write>(alloc: Global, status: Status, action: &Action, errors: &mut E) {
    if let Some(limits) = limits_in(action) {
        if let Ok(Some(words)) = help(alloc, status, limits) {
            let _ = errors.write_all(words.as_bytes());
        }
    }
}
