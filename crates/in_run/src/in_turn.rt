// A run without threads: first in, first out.
ghost use Rattle.std.specs.Prelude.{◌≡◌, IfOk};
ghost use Rattle.in_order.specs.Ends.{EndsOnce};
ghost use Rattle.in_run.specs.declared.stops.Stop.TheVariants.{Normal};
ghost use Rattle.in_run.specs.Outcomes.{RunsInTurn, RunsTo, at_start};
ghost use Rattle.in_machine.specs.Texts.{text_of};

use crate::next::stop;
use crate::running::Outcome;
use in_base::use_promise;
use in_check::Checked;
use in_limits::Limits;
use in_machine::{Machine, StartFault};
use std::alloc::Global;

/// Runs a program first in, first out, as `run` does with one worker, for any number of workers in the limits: for callers without a runtime to start
/// threads. It stops as `run` does. Refused only if no machine starts, since an interaction takes no memory.
pub fn run_in_turn<'a>(
    alloc: Global,
    checked: &'a Checked,
    limits: Limits,
) -> Result<Outcome<'a>, StartFault>
    ensures turn { RunsInTurn checked.now.program limits (at_start result) }
    ensures runs { RunsTo checked.now.program limits (at_start result) }
    ensures order { IfOk result (λ o. o.stop ≡ Normal → EndsOnce checked.now.program o.interactions (text_of o.machine)) }
{
    use_promise!(checked.is_accepted());
    let mut machine = Machine::with_counts(alloc, checked, limits.cells())?;
    let mut interactions = 0;
    loop {
        if let Some(stop) = stop(&machine, limits.limit(), interactions) {
            return Ok(Outcome {
                machine,
                interactions,
                stop,
            });
        }
        interactions += machine.take_first(limits.limit() - interactions);
    }
}
