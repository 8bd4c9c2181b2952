// Interactions of a run of several workers whose first pair has no room.
ghost use Rattle.std.specs.Prelude.{◌≡◌, ◌⊎◌, ◌≤◌, ◌+◌};
ghost use Rattle.in_run.specs.Advancing.{RunsAnyhow};
ghost use Rattle.in_run.specs.Stops.{NoneHasRoom};

use crate::advancing::TURN;
use in_limits::Limits;
use in_machine::Machine;

/// Goes through the queue from its newest pair to its oldest, and does the interaction of each pair that has room, at most `most`. The newest
/// pairs are removed at the least cost. Returns the number of interactions.
fn do_those_with_room(machine: &mut Machine, most: u64) -> u64
    ensures goes { RunsAnyhow machine.old result machine.new }
    ensures most { result ≤ most }
    ensures none { result ≡ 0 → (machine.new ≡ machine.old) × ((most ≡ 0) ⊎ NoneHasRoom machine.new) }
{
    let mut count = 0;
    for number in (0..machine.pairs()).rev() {
        if count == most {
            return count;
        }
        if machine.has_room(number) {
            machine.step(number);
            count += 1;
        }
    }
    count
}

/// With several workers, does some interactions of pairs behind the first one, which has no room, so that the run stops as full only where no pair
/// has room: those of a number of pairs that have room, and then of the newest ones. Returns their number, which is 0 with one worker.
pub(crate) fn go_on(machine: &mut Machine, limits: Limits, interactions: u64) -> u64
    requires { interactions ≤ limits.limit }
    ensures goes { RunsAnyhow machine.old result machine.new }
    ensures most { result + interactions ≤ limits.limit }
    ensures alone { limits.workers ≡ 1 → result ≡ 0 }
    ensures none { result ≡ 0 → (machine.new ≡ machine.old) × ((limits.workers ≡ 1) ⊎ (interactions ≡ limits.limit) ⊎ NoneHasRoom machine.new) }
{
    if limits.workers() == 1 {
        return 0;
    }
    let left = limits.limit() - interactions;
    let count = do_those_with_room(machine, TURN.min(left));
    if count == 0 {
        return 0;
    }
    count + machine.take_newest(0, TURN.min(left - count))
}
