// The interactions of chosen pairs.
ghost use Rattle.std.specs.Prelude.{ℕ, ◌≡◌, ◌<◌, ◌≤◌, length, take, slice_get, Some};
ghost use Rattle.in_chosen_runs.specs.Choosing.{CannotStep, StepsBy};

use in_machine::Machine;

/// Does the interactions of the pairs of these numbers in the queue, one after another, each in the queue that the one before it left. It does fewer
/// than all only if there is no pair of the next number, or its cells aren't free. Returns their number. It takes no memory.
pub(crate) fn choose(machine: &mut Machine, choices: &[u32]) -> usize
    ensures most { result ≤ length choices.now }
    ensures steps { StepsBy machine.old (take result choices.now) machine.new }
    ensures fewer { (c : ℕ) → slice_get choices.now result ≡ Some c → CannotStep machine.new c }
{
    for index in 0..choices.len() {
        let number = choices[index];
        if number >= machine.pairs() || !machine.has_room(number) {
            return index;
        }
        machine.step(number);
    }
    choices.len()
}
