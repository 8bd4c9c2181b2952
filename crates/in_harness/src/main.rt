//! A program for tests alone: answers questions on the text on standard input that no command of `inet` answers. The first word chooses:
//!
//! tokens, count, tree, sizes, tables, nets     the text as it was read, before its types are checked
//! open                                         open nets of that, with their steps, and the first pair without a rule
//! orders                                       the orders of their nodes: found one by one, and guessed
//! program, templates                           the result of `check`, and the templates
//! stock ONE OTHER CELLS                        a stock for the template of these symbols, and the member placed from it
//! verify ITEM STEP ..                          whether these steps build the net (`net`), or the rule of this number
//! plain ORDER TURNS                            the slow reducer: `oldest`, `newest`, or a seed
//! run WORKERS LIMIT CELLS                      the outcome of a run, and the view of its machine
//! round CELLS WORKERS BUDGET STEPS HELD        a round whose first jobs wait for one another, and steps after it
//! rounds CELLS WORKERS BUDGET ROUNDS           the view of a machine after each of these rounds
//! steps CELLS COUNT ..                         its view after each of these counts of interactions in turn
//! still CELLS COUNT NEWEST FIRST               interactions by each of the calls that do them, and nothing of the net
//! written CELLS ROOM                           the part of its net that a writer with this room takes
//! phases CELLS PARTS BETWEEN MOST LIMIT        a run with a phase at every chance
//! gather ONE OTHER ONE OTHER WORD ..           a gather of two jobs: `put JOB ONE OTHER`, `take JOB`
//! workers COUNT                                six jobs that this many workers do
//! calls LIMIT CELLS INTERACTIONS               calls that take memory, a line for each
//! action WORD ..                               the action for these words of `inet`
//!
//! If the text is refused, it writes the refusal; `none` if nothing can start, and `memory` if memory runs out. `tests/harness/asked.py` has the
//! expected answers. `in_harness_texts`, which is proved beside the machines, answers questions without a machine.
#![tactic(auto)]

mod arenas;
mod calls;
mod gates;
mod gathers;
mod phases;
mod rounds;
mod runs;
mod showing;
mod workers;

use crate::arenas::add_over_arena;
use crate::calls::add_all_calls;
use crate::phases::add_phases;
use crate::rounds::{add_round, add_rounds, add_steps, add_still};
use crate::runs::add_run;
use crate::showing::add_written;
use in_check::Checked;
use in_harness_texts::{Sheet, add_answer, answer, small, word};
use in_rounds::{LEAST_CELLS, MOST_CELLS, Machine, StartFault};
use in_syntax::TextLimits;
use std::alloc::Global;
use std::io::Read;
use std::sync::Wait;
use std::thread::Threads;
use std::{env, io};

/// Reads to the end, or until more bytes came than a text may have.
fn read_text<R: Read>(alloc: Global, reader: &mut R) -> io::Result<Vec<u8>> {
    let mut text = Vec::new(alloc);
    let mut buffer = [0u8; 4096];
    let most = TextLimits::Usual.text_bytes();
    // Each turn except the last brings at least one byte, so these are enough.
    for _turn in 0..most + 1 {
        let read = reader.read(&mut buffer)?;
        text.extend_from_slice(&buffer[..read])?;
        if read == 0 || text.len() > most {
            break;
        }
    }
    Ok(text)
}

/// Adds the answer to a question about a machine.
fn add_of_machine<R: Threads + Wait>(
    rt: &R,
    sheet: &mut Sheet,
    machine: &mut Machine,
    words: &[String],
) {
    match word(words, 1) {
        "round" => add_round(rt, sheet, machine, words),
        "rounds" => add_rounds(rt, sheet, machine, words),
        "steps" => add_steps(sheet, machine, words),
        "still" => add_still(sheet, machine, words),
        "written" => add_written(sheet, machine, small(words, 3)),
        _ => add_phases(rt, sheet, machine, words),
    }
}

/// Builds a machine of a program, with the cells of each class that the words give, and adds the answer to a question about it.
fn add_machine_run<R: Threads + Wait>(
    rt: &R,
    sheet: &mut Sheet,
    program: &Checked,
    words: &[String],
) {
    let cells = small(words, 2);
    if cells < LEAST_CELLS || cells > MOST_CELLS {
        return sheet.say("none\n");
    }
    match Machine::new(sheet.alloc, program, cells) {
        Ok(mut machine) => {
            add_of_machine(rt, sheet, &mut machine, words);
            drop(machine);
        }
        Err(StartFault::Full { .. }) => sheet.say("none\n"),
        Err(StartFault::Memory(_)) => sheet.fail(),
    }
}

/// Adds the answer to a question about an accepted program.
fn add_of_program<R: Threads + Wait>(
    rt: &R,
    sheet: &mut Sheet,
    program: &Checked,
    words: &[String],
) {
    match word(words, 1) {
        "run" => add_run(rt, sheet, program, words),
        "calls" => add_all_calls(rt, sheet, program, words),
        "gather" | "workers" => add_over_arena(rt, sheet, program, words),
        _ => add_machine_run(rt, sheet, program, words),
    }
}

/// The same of a text.
fn add_checked<R: Threads + Wait>(rt: &R, sheet: &mut Sheet, words: &[String], text: &[u8]) {
    match answer(sheet.alloc, text) {
        Ok(program) => {
            add_of_program(rt, sheet, &program, words);
            drop(program);
        }
        Err(fault) => sheet.add_fault(&fault),
    }
}

/// Answers the words on a text.
fn tell<R: Print + Threads + Wait>(
    rt: &R,
    alloc: Global,
    words: &[String],
    text: &[u8],
) -> io::Result<()> {
    let mut sheet = Sheet::new(alloc);
    match word(words, 1) {
        "run"
        | "calls"
        | "gather"
        | "workers"
        | "round"
        | "rounds"
        | "steps"
        | "still"
        | "written"
        | "phases" => add_checked(rt, &mut sheet, words, text),
        _ => add_answer(&mut sheet, words, text),
    }
    sheet.print(rt)
}

/// The program's words, its name first, and the text.
fn asked(rt: &HostRuntime) -> io::Result<(Vec<String>, Vec<u8>)> {
    let words = env::args(rt)?.collect(rt.alloc())?;
    let text = read_text(rt.alloc(), &mut rt.reader())?;
    Ok((words, text))
}

fn main(rt: HostRuntime) -> io::Result<()> {
    match asked(&rt) {
        Ok((words, text)) => tell(&rt, rt.alloc(), words.as_slice(), text.as_slice()),
        Err(_) => println!(rt; "memory"),
    }
}
