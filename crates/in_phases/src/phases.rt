// A net is reduced in parts.
ghost use Rattle.std.specs.Prelude.{◌≡◌, ◌<◌, ◌≤◌, ◌+◌};
ghost use Rattle.in_compile.specs.Templates.{AreTemplatesOf};
ghost use Rattle.in_phases.specs.Phases.{AreCountsOfParts, HasFree};
ghost use Rattle.in_phases.specs.Rooms.{KeepsRoom};
ghost use Rattle.in_reducer.specs.Limiting.{most_cells};
ghost use Rattle.in_reducer.specs.Parting.{ReducesTo};
ghost use Rattle.in_reducer.specs.Taking.{TakesNoLast};

use crate::room::Room;
use crate::taking::{bring_back, take_part};
use in_compile::Templates;
use in_reducer::Reducer;
use std::alloc::Global;
use std::thread::{Threads, join_mut};

/// The sharing of a net: into at most `parts` parts, the rest among them; each other part has at most `agents` agents, and gets `share` free cells of
/// each class besides theirs; `floor` cells of each class stay free in the rest; and at most `most` interactions are done together.
#[derive(Clone, Copy, Debug, PartialEq, Eq)]
pub struct Sharing {
    pub parts: u32,
    pub agents: u32,
    pub share: u32,
    pub floor: u32,
    pub most: u64,
}

/// The result of a phase: the number of interactions, the most that one part did, and the number of parts, with the rest.
#[derive(Clone, Copy, Debug, PartialEq, Eq)]
pub struct Worked {
    pub interactions: u64,
    pub longest: u64,
    pub parts: u32,
}

/// Reduces a net by one thread.
fn alone(reducer: &mut Reducer, templates: &Templates, sharing: Sharing) -> Worked
    requires templates { AreTemplatesOf reducer.old.program templates.now }
    requires floor { HasFree reducer.old sharing.floor }
    ensures reduces { ReducesTo reducer.old result.interactions reducer.new }
    ensures most { result.interactions ≤ sharing.most }
    ensures floor { HasFree reducer.new sharing.floor }
    ensures parts { result.parts ≡ 1 }
    ensures counts { AreCountsOfParts result }
    ensures fewer { result.interactions < sharing.most → TakesNoLast sharing.floor reducer.new }
{
    let interactions = reducer.take_newest(templates, sharing.floor, sharing.most);
    Worked {
        interactions,
        longest: interactions,
        parts: 1,
    }
}

/// Reduces a part in its own thread, and at the same time the rest in parts. Returns the counts of both.
#[cycle(phases)]
fn at_once<R: Threads>(
    rt: &R,
    alloc: Global,
    part: &mut Reducer,
    most: u64,
    reducer: &mut Reducer,
    templates: &Templates,
    rest: Sharing,
    room: &mut Room,
) -> (u64, Worked)
    requires part_templates { AreTemplatesOf part.old.program templates.now }
    requires templates { AreTemplatesOf reducer.old.program templates.now }
    requires parts { 1 ≤ rest.parts }
    requires share { rest.share ≤ most_cells }
    requires floor { HasFree reducer.old rest.floor }
    ensures part_reduces { ReducesTo part.old result.0 part.new }
    ensures part_most { result.0 ≤ most }
    ensures reduces { ReducesTo reducer.old result.1.interactions reducer.new }
    ensures most { result.1.interactions ≤ rest.most }
    ensures floor { HasFree reducer.new rest.floor }
    ensures parts { result.1.parts ≤ rest.parts }
    ensures counts { AreCountsOfParts result.1 }
    ensures room { KeepsRoom room.old room.new }
{
    join_mut(
        rt,
        &mut || -> u64
            requires { AreTemplatesOf part.now.program templates.now }
            ensures { ReducesTo part.entry.now result part.exit.now × (result ≤ most) }
        { part.take_newest(templates, 0, most) },
        &mut || -> Worked
            requires { AreTemplatesOf reducer.now.program templates.now × (1 ≤ rest.parts) × (rest.share ≤ most_cells) × HasFree reducer.now rest.floor }
            ensures { ReducesTo reducer.entry.now result.interactions reducer.exit.now × (result.interactions ≤ rest.most) × HasFree reducer.exit.now rest.floor × (result.parts ≤ rest.parts) × KeepsRoom room.entry.now room.exit.now × AreCountsOfParts result }
        { share_out(rt, alloc, reducer, templates, rest, room) },
    )
}

/// Reduces a net in parts, as `reduce_in_parts` does.
#[cycle(phases)]
fn share_out<R: Threads>(
    rt: &R,
    alloc: Global,
    reducer: &mut Reducer,
    templates: &Templates,
    sharing: Sharing,
    room: &mut Room,
) -> Worked
    requires templates { AreTemplatesOf reducer.old.program templates.now }
    requires parts { 1 ≤ sharing.parts }
    requires share { sharing.share ≤ most_cells }
    requires floor { HasFree reducer.old sharing.floor }
    ensures reduces { ReducesTo reducer.old result.interactions reducer.new }
    ensures most { result.interactions ≤ sharing.most }
    ensures floor { HasFree reducer.new sharing.floor }
    ensures parts { result.parts ≤ sharing.parts }
    ensures room { KeepsRoom room.old room.new }
    ensures counts { AreCountsOfParts result }
    ensures whole { result.parts ≡ 1 → result.interactions < sharing.most → TakesNoLast sharing.floor reducer.new }
{
    let pairs = reducer.pairs() / sharing.parts;
    if sharing.parts == 1 || pairs == 0 {
        return alone(reducer, templates, sharing);
    }
    let Some(mut taken) = take_part(
        alloc,
        reducer,
        templates,
        pairs,
        sharing.agents,
        sharing.share,
        sharing.floor,
        room,
    ) else {
        return alone(reducer, templates, sharing);
    };
    let own_most = sharing.most / u64::from(sharing.parts);
    let rest = Sharing {
        parts: sharing.parts - 1,
        agents: sharing.agents,
        share: sharing.share,
        floor: sharing.floor + taken.cells,
        most: sharing.most - own_most,
    };
    let (one, others) = at_once(
        rt,
        alloc,
        &mut taken.part,
        own_most,
        reducer,
        templates,
        rest,
        room,
    );
    bring_back(reducer, taken, room.names.as_mut_slice());
    Worked {
        interactions: one + others.interactions,
        longest: others.longest.max(one),
        parts: others.parts + 1,
    }
}

/// Reduces a net in parts, each in its own thread except the rest: newest pairs first. It is never refused: if memory or cells run out, there are
/// fewer parts, and if a thread can't be started, its part is reduced after the rest. Which agents a part has is open. The room is used again, and
/// grows if it is too small. The sharing has at least one part, and the cells that have to stay free are free before. A net in one part is reduced until no
/// pair is left, or the cells for the last one aren't free with `floor` more of each class, or `most` interactions are done.
pub fn reduce_in_parts<R: Threads>(
    rt: &R,
    alloc: Global,
    reducer: &mut Reducer,
    templates: &Templates,
    sharing: Sharing,
    room: &mut Room,
) -> Worked
    requires templates { AreTemplatesOf reducer.old.program templates.now }
    requires parts { 1 ≤ sharing.parts }
    requires share { sharing.share ≤ most_cells }
    requires floor { HasFree reducer.old sharing.floor }
    ensures reduces { ReducesTo reducer.old result.interactions reducer.new }
    ensures most { result.interactions ≤ sharing.most }
    ensures floor { HasFree reducer.new sharing.floor }
    ensures parts { result.parts ≤ sharing.parts }
    ensures room { KeepsRoom room.old room.new }
    ensures counts { AreCountsOfParts result }
    ensures whole { result.parts ≡ 1 → result.interactions < sharing.most → TakesNoLast sharing.floor reducer.new }
{
    if sharing.parts == 1 {
        return alone(reducer, templates, sharing);
    }
    // A kernel that packs threads (Linux with `sched_vcpu_pack`) puts the first thread that a young process starts on the processor of its parent,
    // where both wait for each other by turns of some milliseconds while others are idle, and the next ones on idle processors. So the first one has
    // no work.
    let (_, worked) = join_mut(
        rt,
        &mut || -> bool { true },
        &mut || -> Worked
            requires { AreTemplatesOf reducer.now.program templates.now × (1 ≤ sharing.parts) × (sharing.share ≤ most_cells) × HasFree reducer.now sharing.floor }
            ensures { ReducesTo reducer.entry.now result.interactions reducer.exit.now × (result.interactions ≤ sharing.most) × HasFree reducer.exit.now sharing.floor × (result.parts ≤ sharing.parts) × KeepsRoom room.entry.now room.exit.now × AreCountsOfParts result × (result.parts ≡ 1 → result.interactions < sharing.most → TakesNoLast sharing.floor reducer.exit.now) }
        { share_out(rt, alloc, reducer, templates, sharing, room) },
    );
    worked
}
