//! Rounds, and interactions in turn.
use crate::gates::Together;
use crate::showing::{add_printed, add_view};
use in_harness_texts::{Sheet, number, small};
use in_rounds::{Gate, Machine, NoGate, Round, round};
use std::alloc::{AllocError, Global};
use std::sync::Wait;
use std::thread::Threads;

/// The interactions of the first pairs in turn, at most `most`, while the cells for the first one are free. Returns their number.
pub fn turns(machine: &mut Machine, most: u64) -> u64 {
    for turn in 0..most {
        if machine.pairs() == 0 || !machine.has_room(0) {
            return turn;
        }
        machine.step(0);
    }
    most
}

/// A round with these workers and this budget; `None` if these are out of range, there is no pair, or its cells aren't free.
pub fn one_round<R: Threads + Wait, G: Gate + Sync>(
    rt: &R,
    alloc: Global,
    machine: &mut Machine,
    workers: u32,
    budget: u64,
    gate: &G,
) -> Option<Result<Round, AllocError>> {
    if workers == 0 || workers > 64 || budget == 0 || machine.pairs() == 0 || !machine.has_room(0) {
        return None;
    }
    Some(round(rt, alloc, machine, workers, budget, gate))
}

/// A round of a machine with the workers and the budget of the words, the number of pairs that it leaves, then the steps of the words, the reached
/// net, and, if first jobs are held back, the numbers of jobs that came to the gate and of times that it gave up.
pub fn add_round<R: Threads + Wait>(
    rt: &R,
    sheet: &mut Sheet,
    machine: &mut Machine,
    words: &[String],
) {
    let held = small(words, 6);
    let gate = Together::of(held);
    match one_round(
        rt,
        sheet.alloc,
        machine,
        small(words, 3),
        number(words, 4),
        &gate,
    ) {
        Some(Ok(done)) => {
            add_done(sheet, machine, done, number(words, 5));
            if held > 0 {
                let numbers = [gate.reached(), gate.gave_up()];
                sheet.fill("# reached, # gave up\n", &numbers);
            }
        }
        Some(Err(_)) => sheet.fail(),
        None => sheet.say("none\n"),
    }
}

/// A round that was done, the number of pairs that it left, and the net after as many steps.
fn add_done(sheet: &mut Sheet, machine: &mut Machine, done: Round, steps: u64) {
    let numbers = [
        done.interactions as u64,
        done.threads as u64,
        machine.pairs() as u64,
    ];
    sheet.fill("# interactions, # threads, # pairs left\n", &numbers);
    turns(machine, steps);
    add_printed(sheet, machine);
}

/// Adds one of several rounds, and the net that the machine shows after it.
fn add_one_of_rounds<R: Threads + Wait>(
    rt: &R,
    sheet: &mut Sheet,
    machine: &mut Machine,
    workers: u32,
    budget: u64,
) {
    match one_round(rt, sheet.alloc, machine, workers, budget, &NoGate) {
        Some(Ok(done)) => sheet.fill("# interactions\n", &[done.interactions as u64]),
        Some(Err(_)) => sheet.fail(),
        None => sheet.say("0 interactions\n"),
    }
    add_view(sheet, machine);
}

/// Rounds in a row, with the number, the workers and the budget of the words, and the view of the machine after each.
pub fn add_rounds<R: Threads + Wait>(
    rt: &R,
    sheet: &mut Sheet,
    machine: &mut Machine,
    words: &[String],
) {
    for _round in 0..number(words, 5) {
        add_one_of_rounds(rt, sheet, machine, small(words, 3), number(words, 4));
    }
}

/// Interactions in turn, by each number of the words, and the view of the machine after these.
pub fn add_steps(sheet: &mut Sheet, machine: &mut Machine, words: &[String]) {
    for at in 3..words.len() {
        let done = turns(machine, number(words, at));
        sheet.fill("# interactions\n", &[done]);
        add_view(sheet, machine);
    }
}

/// Interactions, in the numbers of the words, by `step`, by `take_newest` and by `take_first`, and the number that each did: nothing of the net, so a
/// count of the requests for memory has only those of these calls.
pub fn add_still(sheet: &mut Sheet, machine: &mut Machine, words: &[String]) {
    let stepped = turns(machine, number(words, 3));
    let newest = machine.take_newest(0, number(words, 4));
    let first = machine.take_first(number(words, 5));
    sheet.fill("# by steps, # newest, # first\n", &[stepped, newest, first]);
}
