//! Calls over machines that take memory, each made directly on a program, with a line on its result. `in_harness_texts` has the others.
ghost use Rattle.std.specs.Prelude.{◌≡◌};

use crate::rounds::{one_round, turns};
use crate::runs::{Told, add_run_of};
use crate::showing::{ROOM, add_view, printed};
use in_check::Checked;
use in_harness_texts::{Came, Sheet, add_call, add_calls, came_of, number, small};
use in_limits::Limits;
use in_print::{PrintFault, write_net};
use in_rounds::{Board, Gather, Machine, NoGate, Round, StartFault};
use in_syntax::{MemoryOut, SymbolNo};
use std::alloc::{AllocError, Global};
use std::sync::Wait;
use std::thread::Threads;

/// The number of cells of each class of a machine.
const CELLS: u32 = 64;

/// The most interactions of a round.
const BUDGET: u32 = 2;

/// A gather of two jobs.
fn gather(alloc: Global) -> Option<Came> {
    let jobs = [(SymbolNo(0), SymbolNo(2)), (SymbolNo(1), SymbolNo(2))];
    came_of(Gather::new(alloc, &jobs))
}

/// The result of printing a machine's net, which is this text. When out of memory, no byte is written.
fn written(alloc: Global, machine: &Machine, writer: &mut MemoryOut, text: &[u8]) -> Came
    requires { writer.old.failures ≡ 0 }
{
    match write_net(alloc, machine, writer) {
        Ok(_) if writer.text() == text => Came::Done,
        Err(PrintFault::Memory) if writer.text().is_empty() => Came::Unchanged,
        _ => Came::Wrong,
    }
}

/// The net of a machine, printed again.
fn print(alloc: Global, machine: &Machine) -> Option<Came> {
    let first = printed(alloc, machine)?;
    let mut writer = MemoryOut::new(alloc, ROOM).ok()?;
    Some(written(alloc, machine, &mut writer, first.text()))
}

/// The result of a call, if it left the machine like this.
fn if_left(alloc: Global, machine: &Machine, wanted: &Sheet, came: Came) -> Came {
    let mut found = Sheet::new(alloc);
    add_view(&mut found, machine);
    if found.is_short() {
        Came::Unseen
    } else if found.text() == wanted.text() {
        came
    } else {
        Came::Wrong
    }
}

/// A round of two workers.
fn of_two<R: Threads + Wait>(
    rt: &R,
    alloc: Global,
    machine: &mut Machine,
) -> Option<Result<Round, AllocError>> {
    one_round(rt, alloc, machine, 2, BUDGET as u64, &NoGate)
}

/// The result of a round after a refused one, which must leave the machine as before.
fn rounded_then<R: Threads + Wait>(
    rt: &R,
    alloc: Global,
    machine: &mut Machine,
    before: &Sheet,
    after: &Sheet,
) -> Came {
    let unchanged = if_left(alloc, machine, before, Came::Unchanged);
    if unchanged != Came::Unchanged {
        return unchanged;
    }
    match of_two(rt, alloc, machine) {
        Some(
            Ok(
                Round {
                    interactions,
                    threads,
                },
            ),
        ) => if_left(
            alloc,
            machine,
            after,
            Came::RoundedThen(interactions, threads),
        ),
        Some(Err(_)) => Came::Memory,
        None => Came::Wrong,
    }
}

/// The result of a round.
fn rounded<R: Threads + Wait>(
    rt: &R,
    alloc: Global,
    machine: &mut Machine,
    before: &Sheet,
    after: &Sheet,
) -> Came {
    match of_two(rt, alloc, machine) {
        Some(
            Ok(
                Round {
                    interactions,
                    threads,
                },
            ),
        ) => if_left(alloc, machine, after, Came::Rounded(interactions, threads)),
        Some(Err(_)) => rounded_then(rt, alloc, machine, before, after),
        None => Came::Wrong,
    }
}

/// The same for a machine, with its net read before the call.
fn looked_at_and_rounded<R: Threads + Wait>(
    rt: &R,
    alloc: Global,
    machine: &mut Machine,
    after: &Sheet,
) -> Option<Came> {
    let mut before = Sheet::new(alloc);
    add_view(&mut before, machine);
    if before.is_short() || after.is_short() {
        None
    } else {
        Some(rounded(rt, alloc, machine, &before, after))
    }
}

/// A question about a new machine.
#[derive(Clone, Copy)]
enum Question {
    /// Whether there is a machine.
    Start,
    /// The result of printing its net.
    Printing,
    /// Its net after as many steps as a round does.
    Steps,
    /// The result of a round, after which the net must be that one.
    Round,
}

/// Adds the answer to a question. The view is the net that a machine shows after the steps.
fn asked<R: Threads + Wait>(
    rt: &R,
    alloc: Global,
    view: &mut Sheet,
    machine: &mut Machine,
    question: Question,
) -> Option<Came> {
    match question {
        Question::Start => Some(Came::Done),
        Question::Printing => print(alloc, machine),
        Question::Steps => {
            turns(machine, BUDGET.min(machine.pairs()) as u64);
            add_view(view, machine);
            Some(Came::Done)
        }
        Question::Round => looked_at_and_rounded(rt, alloc, machine, view),
    }
}

/// The answer to a question if memory runs out before there is a machine.
fn unasked(question: Question) -> Option<Came> {
    match question {
        Question::Start => Some(Came::Memory),
        _ => None,
    }
}

/// The answer to a question about a new machine of a program.
fn of_machine<R: Threads + Wait>(
    rt: &R,
    alloc: Global,
    view: &mut Sheet,
    program: &Checked,
    question: Question,
) -> Option<Came> {
    match Machine::new(alloc, program, CELLS) {
        Ok(mut machine) => {
            let came = asked(rt, alloc, view, &mut machine, question);
            drop(machine);
            came
        }
        Err(StartFault::Memory(_)) => unasked(question),
        Err(StartFault::Full { .. }) => Some(Came::Wrong),
    }
}

/// The calls of machines.
fn add_of_machines<R: Threads + Wait>(rt: &R, sheet: &mut Sheet, program: &Checked) {
    let alloc = sheet.alloc;
    let mut view = Sheet::new(alloc);
    let start = of_machine(rt, alloc, &mut view, program, Question::Start);
    add_call(sheet, "Machine::new", start);
    let print = of_machine(rt, alloc, &mut view, program, Question::Printing);
    add_call(sheet, "write_net", print);
    let steps = of_machine(rt, alloc, &mut view, program, Question::Steps);
    let round = match steps {
        Some(_) => of_machine(rt, alloc, &mut view, program, Question::Round),
        None => None,
    };
    add_call(sheet, "round", round);
}

/// All calls on a program, and two that need none; the words give the limit and the cells of the run, and its number of interactions.
pub fn add_all_calls<R: Threads + Wait>(
    rt: &R,
    sheet: &mut Sheet,
    program: &Checked,
    words: &[String],
) {
    add_call(sheet, "Board::new", came_of(Board::new(sheet.alloc, 5, 3)));
    add_call(sheet, "Gather::new", gather(sheet.alloc));
    add_calls(sheet, program);
    add_of_machines(rt, sheet, program);
    match Limits::new(2, number(words, 2), small(words, 3)) {
        Some(limits) => add_run_of(rt, sheet, program, limits, Told::Counted(number(words, 4))),
        None => add_call(sheet, "run", None),
    }
}
