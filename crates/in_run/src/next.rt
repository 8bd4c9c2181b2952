// Whether an interaction is next.
ghost use Rattle.std.specs.Prelude.{◌≤◌, MatchOption};
ghost use Rattle.in_run.specs.Stops.{IsStop, GoesOn};

use crate::stops::Stop;
use in_machine::Machine;

/// The reason why no interaction of the first pair is next, after `interactions` interactions.
pub(crate) fn stop(machine: &Machine, limit: u64, interactions: u64) -> Option<Stop>
    requires { interactions ≤ limit }
    ensures { MatchOption result (GoesOn limit machine.now interactions) (IsStop limit machine.now interactions) }
{
    if machine.pairs() == 0 {
        return Some(Stop::Normal);
    }
    if interactions == limit {
        return Some(Stop::Limit);
    }
    let need = machine.need_of(0);
    let class = need.first_short(machine.vacant())?;
    Some(Stop::Full {
        class,
        need: need.of(class),
        free: machine.free(class),
    })
}
