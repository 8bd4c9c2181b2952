// One part of a net is reduced, to see what parts are worth.
ghost use Rattle.std.specs.Prelude.{◌≤◌, length, count_by, is_some};
ghost use Rattle.in_compile.specs.Templates.{AreTemplatesOf};
ghost use Rattle.in_phases.specs.Phases.{HasFree};
ghost use Rattle.in_phases.specs.Rooms.{KeepsRoom};
ghost use Rattle.in_reducer.specs.Limiting.{most_cells};
ghost use Rattle.in_reducer.specs.Parting.{ReducesTo};

use crate::phases::Sharing;
use crate::room::Room;
use crate::taking::{bring_back, take_part};
use in_compile::Templates;
use in_reducer::Reducer;
use std::alloc::Global;

/// The result of a sample: the number of its interactions, and the number of agents that were moved for them.
#[derive(Clone, Copy, Debug, PartialEq, Eq)]
pub struct Sampled {
    pub interactions: u64,
    pub agents: u64,
}

/// Splits off the trees behind the first `pairs` pairs as a part, reduces it on this thread, and glues it on again. So it costs little to see how many
/// interactions a part does for each agent that is moved. It is never refused: if the trees have more than `sharing.agents` agents, or memory or cells
/// run out, there is no interaction. The cells that have to stay free are free before.
pub fn reduce_a_part(
    alloc: Global,
    reducer: &mut Reducer,
    templates: &Templates,
    pairs: u32,
    sharing: Sharing,
    room: &mut Room,
) -> Sampled
    requires templates { AreTemplatesOf reducer.old.program templates.now }
    requires pairs { pairs ≤ length reducer.old.queue }
    requires share { sharing.share ≤ most_cells }
    requires floor { HasFree reducer.old sharing.floor }
    ensures reduces { ReducesTo reducer.old result.interactions reducer.new }
    ensures most { result.interactions ≤ sharing.most }
    ensures floor { HasFree reducer.new sharing.floor }
    ensures room { KeepsRoom room.old room.new }
    ensures agents { result.agents ≤ count_by is_some reducer.old.agents }
    ensures few { result.agents ≤ sharing.agents }
{
    let Some(mut taken) = take_part(
        alloc,
        reducer,
        templates,
        pairs,
        sharing.agents,
        sharing.share,
        sharing.floor,
        room,
    ) else {
        return Sampled {
            interactions: 0,
            agents: 0,
        };
    };
    let agents = room.branch.agents.len() as u64;
    let interactions = taken.part.take_newest(templates, 0, sharing.most);
    bring_back(reducer, taken, room.names.as_mut_slice());
    Sampled {
        interactions,
        agents,
    }
}
