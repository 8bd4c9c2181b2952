//! Phases at every chance.
ghost use Rattle.std.specs.Prelude.{◌≤◌};

use crate::rounds::turns;
use crate::showing::add_printed;
use in_harness_texts::{Sheet, number, small};
use in_machine::{MOST_CELLS, Room, Sharing, Worked, phase};
use in_rounds::Machine;
use std::alloc::Global;
use std::thread::Threads;

/// The most free cells of each class for a part, so that many phases don't take long.
const MOST_SHARE: u32 = 1_024;

/// A run with a phase at every chance: the number of parts of a phase, of interactions in turn before each, the most interactions of a phase, and the
/// most of all.
#[derive(Clone, Copy)]
struct Asked {
    parts: u32,
    between: u64,
    most: u64,
    limit: u64,
}

/// The number of interactions, and of phases in more than one part.
#[derive(Clone, Copy)]
struct Count {
    interactions: u64,
    phases: u64,
}

/// The number of free cells of each class for each of `parts` parts.
fn share(machine: &Machine, parts: u32) -> u32
    requires { 1 ≤ parts }
    ensures { result ≤ 1048576 }
{
    (machine.least_free() / parts).min(MOST_SHARE)
}

/// A phase of at most `most` interactions, which may leave no cell free.
fn one_phase<R: Threads>(
    rt: &R,
    alloc: Global,
    machine: &mut Machine,
    parts: u32,
    most: u64,
    room: &mut Room,
) -> Worked {
    let parts = parts.max(1);
    let sharing = Sharing {
        parts,
        agents: MOST_CELLS,
        share: share(machine, parts),
        floor: 0,
        most,
    };
    phase(rt, alloc, machine, sharing, room)
}

/// As many interactions in turn as requested, and a phase, within the interactions that are left.
fn turns_and_phase<R: Threads>(
    rt: &R,
    alloc: Global,
    machine: &mut Machine,
    asked: Asked,
    left: u64,
    room: &mut Room,
) -> Count {
    let turned = turns(machine, asked.between.min(left));
    let most = asked.most.min(left.saturating_sub(turned));
    let worked = one_phase(rt, alloc, machine, asked.parts, most, room);
    Count {
        interactions: turned.saturating_add(worked.interactions),
        phases: if worked.parts > 1 { 1 } else { 0 },
    }
}

/// The whole run. Each turn except the last does an interaction, so as many turns as allowed interactions are enough.
fn all<R: Threads>(
    rt: &R,
    alloc: Global,
    machine: &mut Machine,
    asked: Asked,
    room: &mut Room,
) -> Count {
    let mut all = Count {
        interactions: 0,
        phases: 0,
    };
    for _time in 0..asked.limit {
        let left = asked.limit.saturating_sub(all.interactions);
        if left == 0 || machine.pairs() == 0 {
            return all;
        }
        let more = turns_and_phase(rt, alloc, machine, asked, left, room);
        if more.interactions == 0 {
            return all;
        }
        all.interactions = all.interactions.saturating_add(more.interactions);
        all.phases = all.phases.saturating_add(more.phases);
    }
    all
}

/// The run of a machine with a phase at every chance, by the numbers of the words: again and again some interactions in turn, first in, first out,
/// and then a phase, until no pair is left, the limit is reached, or no interaction is possible.
pub fn add_phases<R: Threads>(rt: &R, sheet: &mut Sheet, machine: &mut Machine, words: &[String]) {
    let asked = Asked {
        parts: small(words, 3),
        between: number(words, 4),
        most: number(words, 5),
        limit: number(words, 6),
    };
    let mut room = Room::new(sheet.alloc);
    let count = all(rt, sheet.alloc, machine, asked, &mut room);
    drop(room);
    add_printed(sheet, machine);
    let numbers = [count.interactions, count.phases];
    sheet.fill("interactions: #\nphases: #\n", &numbers);
}
