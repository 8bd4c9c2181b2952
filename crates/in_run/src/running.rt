// A run: with one worker first in, first out.
ghost use Rattle.std.specs.Prelude.{◌≡◌, IfOk};
ghost use Rattle.in_order.specs.Ends.{EndsOnce};
ghost use Rattle.in_run.specs.declared.stops.Stop.TheVariants.{Normal};
ghost use Rattle.in_run.specs.Outcomes.{GoesOnToTheEnd, RunsTo};
ghost use Rattle.in_machine.specs.Texts.{text_of};

use crate::advancing::advance;
use crate::going_on::go_on;
use crate::next::stop;
use crate::pace::Pace;
use crate::stops::Stop;
use crate::watching::{NoWatch, Progress, Watch};
use in_base::use_promise;
use in_check::Checked;
use in_claims::Gate;
use in_limits::Limits;
use in_machine::{CellCounts, Machine, Need, StartFault};
use std::alloc::Global;
use std::sync::Wait;
use std::thread::Threads;

/// The outcome of a run: its machine, the number of its interactions, and its stop.
#[derive(Drop)]
pub struct Outcome<'a> {
    pub machine: Machine<'a>,
    pub interactions: u64,
    pub stop: Stop,
}

/// The reason why a run has no outcome: there is no machine, or memory ran out after some interactions, with the machine at that point. By
/// its contract no run returns the second: a phase for which memory runs out has fewer parts.
#[derive(Drop)]
pub enum RunFault<'a> {
    Start(StartFault),
    Memory {
        machine: Machine<'a>,
        interactions: u64,
    },
}

/// The progress of a watched run.
fn progress_of(machine: &Machine, cells: CellCounts, interactions: u64, pace: &Pace) -> Progress {
    let free = machine.vacant();
    Progress {
        interactions,
        phases: pace.phases,
        threads: pace.threads,
        used: Need::by_class(|class| cells.of(class).saturating_sub(free.of(class))),
    }
}

/// The same as `run`, with a watch that sees the progress of the run and doesn't change it.
pub fn run_watched<'a, R: Threads, W: Watch>(
    rt: &R,
    alloc: Global,
    checked: &'a Checked,
    limits: Limits,
    watch: &mut W,
) -> Result<Outcome<'a>, RunFault<'a>>
    ensures runs { RunsTo checked.now.program limits result }
    ensures full { (limits.workers ≡ 1 → ⊥) → GoesOnToTheEnd checked.now.program limits result }
    ensures order { IfOk result (λ o. o.stop ≡ Normal → EndsOnce checked.now.program o.interactions (text_of o.machine)) }
{
    use_promise!(checked.is_accepted());
    watch.begin();
    let mut machine = match Machine::with_counts(alloc, checked, limits.cells()) {
        Ok(machine) => machine,
        Err(fault) => return Err(RunFault::Start(fault)),
    };
    let mut interactions = 0;
    let mut pace = Pace::begin(alloc);
    watch.look(progress_of(&machine, limits.cells(), interactions, &pace));
    loop {
        if let Some(stop) = stop(&machine, limits.limit(), interactions) {
            let more = go_on(&mut machine, limits, interactions);
            if more == 0 {
                watch.end(progress_of(&machine, limits.cells(), interactions, &pace));
                return Ok(Outcome {
                    machine,
                    interactions,
                    stop,
                });
            }
            interactions += more;
            watch.look(progress_of(&machine, limits.cells(), interactions, &pace));
            continue;
        }
        let turn = watch.turn().max(1);
        interactions += advance(
            rt,
            alloc,
            &mut machine,
            limits,
            interactions,
            turn,
            &mut pace,
        );
        watch.look(progress_of(&machine, limits.cells(), interactions, &pace));
    }
}

/// Runs a program. With one worker it does so first in, first out: each interaction is at the first pair of the queue, and its new pairs come
/// last. How several workers share the interactions is open: in a long run they reduce the net in parts that share nothing. Parts have no jobs,
/// so no worker passes the gate, which is for the workers of rounds.
///
/// Before each interaction, in this order: if no pair is left, the run stops as `Normal`; if it did as many interactions as are allowed, as
/// `Limit`; if the first pair needs more cells of a class than are free, tested in the order of the classes, as `Full`. Several workers first do the
/// interactions of the pairs that have room: so they stop as `Full` only if no pair has. Refused if no machine starts.
///
/// If it stops as `Normal`, it has reached the one end of its program: each run that ends, in any order, has as many interactions and the same text.
pub fn run<'a, R: Threads + Wait, G: Gate + Sync>(
    rt: &R,
    alloc: Global,
    checked: &'a Checked,
    limits: Limits,
    _gate: &G,
) -> Result<Outcome<'a>, RunFault<'a>>
    ensures runs { RunsTo checked.now.program limits result }
    ensures full { (limits.workers ≡ 1 → ⊥) → GoesOnToTheEnd checked.now.program limits result }
    ensures order { IfOk result (λ o. o.stop ≡ Normal → EndsOnce checked.now.program o.interactions (text_of o.machine)) }
{
    run_watched(rt, alloc, checked, limits, &mut NoWatch)
}
