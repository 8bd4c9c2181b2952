// When several workers reduce a net in parts, and how it is shared out. This project's own choice, as measured (`docs/work/SPEED.md`): no
// contract speaks of it. It counts interactions, agents and pairs alone, so that a run is the same each time.
ghost use Rattle.std.specs.Prelude.{◌≡◌, ◌≤◌, IfSome};
ghost use Rattle.in_phases.specs.Phases.{AreCountsOfParts, HasFree};
ghost use Rattle.in_reducer.specs.Limiting.{most_cells};

use in_limits::Limits;
use in_machine::{MOST_CELLS, Machine, Need, Room, Sampled, Sharing, Worked};
use std::alloc::Global;

/// The number of interactions before a phase is tried: a shorter run is over before it could pay, and the pairs are spread far by then.
const PHASES_FROM: u64 = 16_384;

/// The most interactions that are done before the next test whether the net is still small.
const LONG_TURN: u64 = 8_192;

/// The least number of pairs for a phase.
const PHASE_PAIRS: u32 = 512;

/// With fewer pairs than this, a phase is tried only after `FEW_PAIRS_FROM` interactions: most shorter runs end before it pays.
const MANY_PAIRS: u32 = 1_024;

const FEW_PAIRS_FROM: u64 = 524_288;

/// The pairs for each part.
const PART_PAIRS: u32 = 64;

/// With so many pairs a first phase isn't put off for its lists.
const MOST_PAIRS_PUT_OFF: u32 = 5_120;

/// How many interactions an agent counts for where it is put off: a large net gains most.
const AGENT_COUNTS: u64 = 8;

/// The most parts, with the rest.
const MOST_PARTS: u32 = 16;

/// The least number of interactions left for a phase.
const LEAST_LEFT: u64 = 27_200;

/// No phase is tried if the free cells above the floor are fewer than this part of the floor.
const LEAST_SPARE: u32 = 16;

/// The most interactions of a part, for each agent of the net, and a number besides: a part that would run on alone is stopped then. Parts
/// may do more after a phase whose parts did alike.
const FIRST_FOR_EACH_AGENT: u32 = 32;

const MOST_FOR_EACH_AGENT: u32 = 64;

const MOST_BESIDES: u64 = 32_768;

/// The pairs of a sample.
pub(crate) const SAMPLE_PAIRS: u32 = 32;

/// The most interactions of a sample, and the free cells of each class for them.
const SAMPLE_MOST: u64 = 8_192;

const SAMPLE_SHARE: u32 = 4_096;

/// The interactions that a sample has to do for each agent that is moved, if there will be two parts. With more parts this number is divided by that
/// of the other parts, up to `MOST_OTHERS`.
const WORTH: u64 = 24;

const MOST_OTHERS: u64 = 3;

/// A sample of more agents can't be worth it, so it isn't moved.
const SAMPLE_AGENTS: u32 = (SAMPLE_MOST * MOST_OTHERS / WORTH) as u32;

/// The cost of a sample besides that of its agents, in interactions.
const COST_OF_A_SAMPLE: u64 = 2_000;

/// A smaller net is in the cache in any order, so that the oldest pairs are taken while no phase is tried.
const SMALL_NET: u32 = 65_536;

/// The cost of a phase for each agent of the net, some of which are copied there and back, in interactions.
const COST_OF_AN_AGENT: u64 = 3;

/// .. and besides for each thread.
const COST_OF_A_THREAD: u64 = 8_000;

/// The wait after a phase that hasn't paid, or a sample that wasn't worth it, in multiples of its cost; twice as long after each further one.
const FIRST_WAIT: u64 = 16;

/// The state of a run of several workers between two tests: the number of interactions from which on a phase is considered, the wait after the next
/// phase that doesn't pay, in multiples of its cost, how many interactions for each agent a part may do, and the room for phases; and the number of
/// phases, and the most threads of one.
#[derive(Drop)]
pub(crate) struct Pace {
    phase_from: u64,
    wait: u64,
    pub(crate) for_each: u32,
    pub(crate) is_worth: bool,
    pub(crate) phases: u64,
    pub(crate) threads: u32,
    pub(crate) room: Room,
}

impl Pace {
    /// The state at the beginning of a run.
    pub(crate) fn begin(alloc: Global) -> Pace {
        Pace {
            phase_from: PHASES_FROM,
            wait: FIRST_WAIT,
            for_each: FIRST_FOR_EACH_AGENT,
            is_worth: false,
            phases: 0,
            threads: 1,
            room: Room::new(alloc),
        }
    }

    /// How many interactions are done as one worker does them before it is tested again what comes next: 0 if a phase is considered, or if the newest
    /// pairs are taken.
    pub(crate) fn alone(&self, machine: &Machine, interactions: u64) -> u64 {
        if are_newest_first(machine) {
            return 0;
        }
        self.phase_from.saturating_sub(interactions).min(LONG_TURN)
    }

    /// Whether the run waits, before the first phase or after one that hasn't paid.
    pub(crate) fn waits(&self, interactions: u64) -> bool {
        interactions < self.phase_from
    }

    /// Notes the gain of a phase, of a net with `agents` agents, after which `interactions` interactions are done. It has paid if the other parts,
    /// without the longest one, did at least twice its cost in interactions, and a quarter of all interactions. What it left may be long values
    /// alone, which cost more to move than there is to do with them, so a sample comes before the next phase too.
    pub(crate) fn note(&mut self, worked: Worked, agents: u32, interactions: u64)
        requires { AreCountsOfParts worked }
    {
        self.phases = self.phases.saturating_add(1);
        self.threads = self.threads.max(worked.parts);
        let gain = worked.interactions - worked.longest;
        self.for_each = if are_alike(worked, gain) {
            MOST_FOR_EACH_AGENT
        } else {
            FIRST_FOR_EACH_AGENT
        };
        let cost = COST_OF_AN_AGENT * u64::from(agents)
            + COST_OF_A_THREAD * u64::from(worked.parts);
        if gain >= 2 * cost && gain >= worked.interactions / 4 {
            self.wait = FIRST_WAIT;
            self.is_worth = false;
        } else {
            self.put_off(cost, interactions);
        }
    }

    /// Notes a sample for a phase of that many parts, after which `interactions` interactions are done. It was worth it if it did many interactions for
    /// each agent that was moved: fewer where more parts will be reduced at once.
    pub(crate) fn note_sample(&mut self, sampled: Sampled, parts: u32, interactions: u64) {
        let others = u64::from(parts).saturating_sub(1).min(MOST_OTHERS);
        let worth = sampled.interactions.saturating_mul(others) / WORTH;
        self.is_worth = sampled.agents > 0 && worth >= sampled.agents;
        if !self.is_worth {
            let cost = sampled.agents.saturating_mul(COST_OF_AN_AGENT);
            self.put_off(cost.saturating_add(COST_OF_A_SAMPLE), interactions);
        }
    }

    /// Puts the next phase off, and has a sample before it.
    fn put_off(&mut self, cost: u64, interactions: u64) {
        self.is_worth = false;
        self.phase_from = interactions.saturating_add(self.wait.saturating_mul(cost));
        self.wait = self.wait.saturating_mul(2);
    }
}

/// Whether the other parts of a phase did three quarters of what they would have if all had done as much as the longest one.
fn are_alike(worked: Worked, gain: u64) -> bool {
    let others = u64::from(worked.parts).saturating_sub(1).max(1);
    gain / others >= worked.longest / 4 * 3
}

/// Whether the newest pairs are taken while no phase is tried: a large net stays small that way, and its newest agents are in the cache.
pub(crate) fn are_newest_first(machine: &Machine) -> bool {
    machine.agents() >= SMALL_NET
}

/// The sharing for a sample in place of this one, with `left` interactions left.
pub(crate) fn sampling(sharing: Sharing, left: u64) -> Sharing
    requires { sharing.share ≤ most_cells }
    ensures share { result.share ≤ most_cells }
    ensures floor { result.floor ≡ sharing.floor }
    ensures most { result.most ≤ left }
{
    Sharing {
        parts: 1,
        agents: SAMPLE_AGENTS,
        share: sharing.share.min(SAMPLE_SHARE),
        floor: sharing.floor,
        most: left.min(SAMPLE_MOST),
    }
}

/// Half of the cells of the class that has the fewest.
pub(crate) fn half_of_cells(limits: Limits) -> u32 {
    Need::of_counts(limits.cells()).least() / 2
}

/// Whether a phase is put off for its lists, which have a place for each number up to the highest one of an agent: where an agent has more than two
/// auxiliary ports, that is above the numbers of all small cells, and to touch so much memory takes some milliseconds.
fn is_put_off(machine: &Machine, interactions: u64) -> bool {
    let done = interactions.saturating_add(AGENT_COUNTS * u64::from(machine.agents()));
    machine.pairs() < MOST_PAIRS_PUT_OFF && u64::from(machine.reducer.bound()) > done
}

/// The free cells of each class for all parts: the spare ones, without as many as the agents that come back. If fewer than `least` are left so, all
/// spare ones: then there are fewer parts.
fn shared(spare: u32, agents: u32, least: u32) -> u32 {
    let besides = spare.saturating_sub(agents);
    if besides < least { spare } else { besides }
}

/// The sharing of a machine's net among the workers, after `interactions` interactions, with `left` left; `None` if a phase can't pay. Half of the
/// cells are kept back, so the order in which pairs are taken is no reason to stop.
pub(crate) fn sharing(
    machine: &Machine,
    limits: Limits,
    interactions: u64,
    left: u64,
    for_each: u32,
) -> Option<Sharing>
    ensures parts { IfSome result (λ s. 1 ≤ s.parts) }
    ensures share { IfSome result (λ s. s.share ≤ most_cells) }
    ensures floor { IfSome result (λ s. HasFree machine.now s.floor) }
    ensures most { IfSome result (λ s. s.most ≤ left) }
{
    let pairs = machine.pairs();
    let parts = limits.workers().min(MOST_PARTS).min(pairs / PART_PAIRS);
    let floor = half_of_cells(limits);
    let free = machine.least_free();
    let has_few = pairs < MANY_PAIRS && interactions < FEW_PAIRS_FROM;
    let is_early = has_few || is_put_off(machine, interactions);
    if is_early || pairs < PHASE_PAIRS || parts < 2 || left < LEAST_LEFT || free < floor {
        return None;
    }
    let spare = free - floor;
    let least = floor / LEAST_SPARE;
    if spare < least {
        return None;
    }
    let agents = machine.agents();
    let most = u64::from(for_each) * u64::from(agents) + MOST_BESIDES;
    Some(Sharing {
        parts,
        agents: MOST_CELLS,
        share: MOST_CELLS.min(shared(spare, agents, least) / parts),
        floor,
        most: left.min(most.saturating_mul(u64::from(parts))),
    })
}
