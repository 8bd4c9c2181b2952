// The wires of a right member, in the order in which a machine writes them.
ghost use Rattle.std.specs.Prelude.{◌≡◌, ◌++◌, ◌<◌, ◌≤◌, length, Some, slice_get, IfOk, OnOk};
ghost use Rattle.std.specs.List.{filter};
ghost use Rattle.in_syntax.specs.Grammar.{max_ports};
ghost use Rattle.in_compile.specs.declared.joints.Joint.TheVariants.{ToAgent};
ghost use Rattle.in_compile.specs.Members.{AgentParts};
ghost use Rattle.in_compile.specs.Storing.{IsSmallJoint, IsSmallMember};
ghost use Rattle.in_compile.specs.Wires.{first_agent_slot, is_from_first, is_from_lowest, over_of, place_in, slot_of, slots, wires_at, within_of};

use crate::joints::Joint;
use crate::member::Member;
use in_arena::PlaceStep;
use in_base::use_promise;
use sqlite_items::Items;
use std::alloc::{AllocError, Global};
use std::marker::Model;

/// The slot of agent 0. Those before it are for boundary ends: a pair has at most 32 auxiliary ports.
pub const FIRST_AGENT_SLOT: u16 = 32;

/// Where a wire of a right member leads: a slot, which is a boundary end's number or `FIRST_AGENT_SLOT` and the agent's number, and the step to the
/// place in it, which is 0 at a boundary end. So a machine that keeps its cells by slots finds the wire's end without a test.
#[derive(Drop)]
pub struct SmallJoint {
    slot: u16,
    step: PlaceStep,
}

impl Model for SmallJoint {
    ghost use Rattle.in_compile.specs.declared.joints.Joint.{Joint};
    ghost use Rattle.in_compile.specs.Storing.{joint_at_slot, FitsSlot};

    ghost Value = { Joint };

    ghost view = { λ s. joint_at_slot s.slot s.step };

    ghost invariant = { λ s. FitsSlot s.slot s.step };
}

impl SmallJoint {
    /// This joint, by its slot.
    fn of(joint: Joint) -> SmallJoint
        requires { IsSmallJoint joint }
        ensures { result ≡ joint }
    {
        match joint {
            Joint::ToAgent(agent, place) => SmallJoint {
                slot: FIRST_AGENT_SLOT + agent as u16,
                step: PlaceStep::to(place),
            },
            Joint::ToBoundary(end) => SmallJoint {
                slot: end,
                step: PlaceStep::to(0),
            },
        }
    }

    /// Its slot, below 1,056.
    #[inline(always)]
    pub fn slot(&self) -> u16
        ensures slot { result ≡ slot_of self.now }
        ensures few { result < slots }
    {
        self.slot
    }

    /// The step to its place, at most 16.
    #[inline(always)]
    pub fn step(&self) -> PlaceStep
        ensures place { result ≡ place_in self.now }
        ensures few { result ≤ max_ports }
    {
        self.step
    }
}

/// A wire of a right member that has a boundary end: the lowest one, and the wire's other end.
#[derive(Drop)]
pub struct OverWire {
    end: u8,
    to: SmallJoint,
}

impl Model for OverWire {
    ghost use Rattle.std.specs.Prelude.{ℕ, ◌<◌};
    ghost use Rattle.in_compile.specs.declared.joints.Joint.{Joint};
    ghost use Rattle.in_compile.specs.Wires.{first_agent_slot};

    ghost Value = { ℕ × Joint };

    ghost view = { λ w. (w.end, w.to) };

    ghost invariant = { λ w. w.end < first_agent_slot };
}

impl OverWire {
    /// The wire's lowest boundary end, below 32.
    #[inline(always)]
    pub fn end(&self) -> u8
        ensures end { result ≡ self.now.0 }
        ensures few { result < first_agent_slot }
    {
        self.end
    }

    /// The slot of the wire's other end, below 1,056.
    #[inline(always)]
    pub fn slot(&self) -> u16
        ensures slot { result ≡ slot_of self.now.1 }
        ensures few { result < slots }
    {
        self.to.slot()
    }

    /// The step to the place in that slot, at most 16.
    #[inline(always)]
    pub fn step(&self) -> PlaceStep
        ensures place { result ≡ place_in self.now.1 }
        ensures few { result ≤ max_ports }
    {
        self.to.step()
    }
}

/// A wire of a right member between two places of its agents.
#[derive(Drop)]
pub struct WithinWire {
    one: SmallJoint,
    other: SmallJoint,
}

impl Model for WithinWire {
    ghost use Rattle.in_compile.specs.declared.joints.Joint.{Joint};

    ghost Value = { Joint × Joint };

    ghost view = { λ w. (w.one, w.other) };
}

impl WithinWire {
    /// The place from which the wire is listed.
    #[inline(always)]
    pub fn one(&self) -> &SmallJoint
        ensures { result.now ≡ self.now.0 }
    {
        &self.one
    }

    /// The place at the wire's other end.
    #[inline(always)]
    pub fn other(&self) -> &SmallJoint
        ensures { result.now ≡ self.now.1 }
    {
        &self.other
    }
}

/// Whether the wire from this boundary end to that joint has no lower boundary end.
fn starts_lowest(end: u16, to: Joint) -> bool
    ensures { result ≡ is_from_lowest (end, to) }
{
    match to {
        Joint::ToAgent(..) => true,
        Joint::ToBoundary(other) => end <= other,
    }
}

/// Whether the wire from this place of this agent to that joint leads to a later place of an agent.
fn starts_first(agent: u32, place: u8, to: Joint) -> bool
    ensures { result ≡ is_from_first (ToAgent agent place, to) }
{
    match to {
        Joint::ToAgent(other, at) => agent < other || (agent == other && place < at),
        Joint::ToBoundary(_) => false,
    }
}

/// The wires that have a boundary end.
pub(crate) fn over_wires(alloc: Global, member: &Member) -> Result<Items<OverWire>, AllocError>
    requires { IsSmallMember member.now }
    ensures { IfOk result (λ ws. ws ≡ over_of member.now) }
{
    use_promise!(member.is_sound());
    let mut wires = Items::new(alloc);
    for number in 0..member.boundary_ends() {
        let end = number as u16;
        let to = member.joint(end);
        if starts_lowest(end, to) {
            wires.push(OverWire {
                end: end as u8,
                to: SmallJoint::of(to),
            })?;
        }
    }
    Ok(wires)
}

/// Adds the wires that lead from a place of this agent to a later one.
fn add_within(member: &Member, agent: u32, wires: &mut Items<WithinWire>) -> Result<(), AllocError>
    requires there { agent < length member.now.agents }
    requires small { IsSmallMember member.now }
    ensures { (a : AgentParts) → slice_get member.now.agents agent ≡ Some a → OnOk result (wires.new ≡ wires.old ++ filter is_from_first (wires_at (agent, a))) }
{
    use_promise!(member.is_sound());
    for place in 0..member.places(agent) {
        let to = member.end(agent, place);
        if starts_first(agent, place, to) {
            wires.push(WithinWire {
                one: SmallJoint::of(Joint::ToAgent(agent, place)),
                other: SmallJoint::of(to),
            })?;
        }
    }
    Ok(())
}

/// The wires between places of agents.
pub(crate) fn within_wires(alloc: Global, member: &Member) -> Result<Items<WithinWire>, AllocError>
    requires { IsSmallMember member.now }
    ensures { IfOk result (λ ws. ws ≡ within_of member.now) }
{
    let mut wires = Items::new(alloc);
    for agent in 0..member.agents() {
        add_within(member, agent, &mut wires)?;
    }
    Ok(wires)
}
