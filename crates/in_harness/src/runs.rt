//! Runs and their outcomes.
use crate::showing::add_machine;
use in_check::Checked;
use in_harness_texts::{Came, Sheet, add_call, number, small};
use in_limits::Limits;
use in_rounds::{NoGate, StartFault};
use in_run::{Outcome, RunFault, run};
use std::sync::Wait;
use std::thread::Threads;

/// The part of a run's outcome that is written.
#[derive(Clone, Copy)]
pub enum Told {
    /// Its end, and the view of its machine.
    All,
    /// Whether it has this many interactions, as a call that takes memory.
    Counted(u64),
}

/// Adds the outcome of a run.
fn add_outcome(sheet: &mut Sheet, outcome: &Outcome, told: Told) {
    match told {
        Told::All => {
            sheet.number(outcome.interactions);
            sheet.say(" ");
            sheet.show(&outcome.stop);
            sheet.say("\n");
            add_machine(sheet, &outcome.machine);
        }
        Told::Counted(count) if outcome.interactions == count => {
            add_call(sheet, "run", Some(Came::Done))
        }
        Told::Counted(_) => add_call(sheet, "run", Some(Came::Wrong)),
    }
}

/// Adds that nothing can start, or that memory ran out.
fn add_no_run(sheet: &mut Sheet, fault: &RunFault) {
    match fault {
        RunFault::Start(StartFault::Full { .. }) => sheet.say("none\n"),
        _ => sheet.fail(),
    }
}

/// The result of a refused run. Memory runs out only before a run: within one, phases then have fewer parts.
fn came_of_fault(fault: &RunFault) -> Came {
    match fault {
        RunFault::Start(StartFault::Memory(_)) => Came::Memory,
        _ => Came::Wrong,
    }
}

/// Adds the reason why there was no run.
fn add_fault(sheet: &mut Sheet, fault: &RunFault, told: Told) {
    match told {
        Told::All => add_no_run(sheet, fault),
        Told::Counted(_) => add_call(sheet, "run", Some(came_of_fault(fault))),
    }
}

/// The run of a program within these limits.
pub fn add_run_of<R: Threads + Wait>(
    rt: &R,
    sheet: &mut Sheet,
    program: &Checked,
    limits: Limits,
    told: Told,
) {
    match run(rt, sheet.alloc, program, limits, &NoGate) {
        Ok(outcome) => {
            add_outcome(sheet, &outcome, told);
            drop(outcome);
        }
        Err(fault) => {
            add_fault(sheet, &fault, told);
            drop(fault);
        }
    }
}

/// The run of a program with the workers, the limit and the cells of the words.
pub fn add_run<R: Threads + Wait>(rt: &R, sheet: &mut Sheet, program: &Checked, words: &[String]) {
    match Limits::new(small(words, 2), number(words, 3), small(words, 4)) {
        Some(limits) => add_run_of(rt, sheet, program, limits, Told::All),
        None => sheet.say("no limits\n"),
    }
}
