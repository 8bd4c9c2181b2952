// A machine's net is reduced in parts.
ghost use Rattle.std.specs.Prelude.{◌≡◌, ◌≤◌, ◌<◌, length, count_by, is_some};
ghost use Rattle.in_phases.specs.Phases.{AreCountsOfParts, HasFree};
ghost use Rattle.in_phases.specs.Rooms.{KeepsRoom};
ghost use Rattle.in_reducer.specs.Limiting.{most_cells};
ghost use Rattle.in_reducer.specs.Parting.{ReducesTo};
ghost use Rattle.in_reducer.specs.Taking.{TakesNoLast};
ghost use Rattle.in_machine.specs.Phases.{IsPhase};

use crate::machine::Machine;
use in_base::use_promise;
use in_phases::{Room, Sampled, Sharing, Worked, reduce_a_part, reduce_in_parts};
use std::alloc::Global;
use std::thread::Threads;

/// A phase: the net is reduced in parts that share nothing, each in its own thread except the rest, which the caller reduces. The interactions and
/// their order are open; they are at most `most` of the sharing, and at least `floor` cells of each class are free afterwards. The
/// net is one that the program reaches by as many interactions more.
///
/// The sharing is into at least one part, and `floor` cells of each class are free before. The room is used again, and grows if it is too small. A
/// phase is never refused: if memory runs out, there are fewer parts, and if a thread can't be started, the caller does its part. It waits for its
/// threads. A net in one part is reduced until no pair is left, or the cells for the last one aren't free with `floor` more of each class, or `most`
/// interactions are done.
pub fn phase<R: Threads>(
    rt: &R,
    alloc: Global,
    machine: &mut Machine,
    sharing: Sharing,
    room: &mut Room,
) -> Worked
    requires parts { 1 ≤ sharing.parts }
    requires share { sharing.share ≤ most_cells }
    requires floor { HasFree machine.old sharing.floor }
    ensures phase { IsPhase machine.old result.interactions machine.new }
    ensures most { result.interactions ≤ sharing.most }
    ensures free { HasFree machine.new sharing.floor }
    ensures room { KeepsRoom room.old room.new }
    ensures reduces { ReducesTo machine.old result.interactions machine.new }
    ensures parts { result.parts ≤ sharing.parts }
    ensures counts { AreCountsOfParts result }
    ensures whole { result.parts ≡ 1 → result.interactions < sharing.most → TakesNoLast sharing.floor machine.new }
{
    let worked = reduce_in_parts(
        rt,
        alloc,
        &mut machine.reducer,
        &machine.templates,
        sharing,
        room,
    );
    use_promise!(machine.reducer.pairs());
    worked
}

/// The same with one part alone, that of the first `pairs` pairs, which the caller reduces: so it costs little to see how many interactions a part does
/// for each agent that is moved. There are as many pairs.
pub fn sample(
    alloc: Global,
    machine: &mut Machine,
    pairs: u32,
    sharing: Sharing,
    room: &mut Room,
) -> Sampled
    requires pairs { pairs ≤ length machine.old.queue }
    requires share { sharing.share ≤ most_cells }
    requires floor { HasFree machine.old sharing.floor }
    ensures phase { IsPhase machine.old result.interactions machine.new }
    ensures most { result.interactions ≤ sharing.most }
    ensures free { HasFree machine.new sharing.floor }
    ensures room { KeepsRoom room.old room.new }
    ensures reduces { ReducesTo machine.old result.interactions machine.new }
    ensures agents { result.agents ≤ count_by is_some machine.old.agents }
    ensures few { result.agents ≤ sharing.agents }
{
    let sampled = reduce_a_part(
        alloc,
        &mut machine.reducer,
        &machine.templates,
        pairs,
        sharing,
        room,
    );
    use_promise!(machine.reducer.pairs());
    sampled
}
