// A member and its accessors.
ghost use Rattle.std.specs.Prelude.{◌≡◌, ◌<◌, length, Some, slice_get};
ghost use Rattle.in_compile.specs.declared.joints.Joint.TheVariants.{ToAgent, ToBoundary};
ghost use Rattle.in_compile.specs.Members.{symbol_at, class_at, places_at, joint_at, IsPlaceOf, IsSoundMember};

use crate::cells::Need;
use crate::joints::{Joint, StoredJoint};
use in_arena::{CellClass, HeadWord, NewCell};
use in_base::use_invariant;
use in_syntax::SymbolNo;
use sqlite_items::Items;
use std::marker::Model;

/// The right member of a rule or the initial net of a program, as a machine over cells places it: its agents with their numbers in the
/// net, the other ends of the wires at their places and at the boundary ends, and the active pairs among them. Boundary ends are the net's free
/// ends, by their numbers from 0.
///
/// An agent is stored as the cell that it takes. The joints at its places follow each other in the list of all joints: its mark is the number of the
/// first one.
///
/// Its first 64 bytes have all that a machine reads of it at each interaction.
#[derive(Drop)]
pub struct Member {
    pub(crate) agents: Items<NewCell>,
    pub(crate) joints: Items<StoredJoint>,
    pub(crate) need: Need,
    pub(crate) boundary: u16,
    pub(crate) pairs: Items<(u32, u32)>,
}

// Contracts see no layout: each agent has its joints, and so have the boundary ends.
impl Model for Member {
    ghost use Rattle.in_compile.specs.Members.{MemberParts};

    ghost Value = { MemberParts };

    ghost use Rattle.in_compile.specs.MemberInside.{member_view, IsMember};

    ghost view = { member_view };

    ghost invariant = { IsMember };
}

impl Member {
    /// Its agents' cells hold their places, its wires lead both ways, and its need is that of its agents, for proofs. The call does nothing.
    pub fn is_sound(&self)
        ensures { IsSoundMember self.now }
    {
        use_invariant!(self.agents);
    }

    /// The number of cells of each class that its agents take.
    pub fn need(&self) -> Need
        ensures { result ≡ self.now.need }
    {
        self.need
    }

    /// The number of its agents. They are numbered from 0, as in the net.
    pub fn agents(&self) -> u32
        ensures { result ≡ length self.now.agents }
    {
        self.agents.len() as u32
    }

    /// The symbol of the agent of that number.
    pub fn symbol(&self, agent: u32) -> SymbolNo
        requires { agent < length self.now.agents }
        ensures { symbol_at self.now agent ≡ Some result }
    {
        SymbolNo(self.head(agent).symbol())
    }

    /// The head of this agent's cell: its symbol, and how many places it has.
    #[inline(always)]
    pub fn head(&self, agent: u32) -> HeadWord
        requires { agent < length self.now.agents }
        ensures symbol { symbol_at self.now agent ≡ Some (record { 0 = result.word }) }
        ensures places { places_at self.now agent ≡ Some result.count }
    {
        self.agents.as_slice()[agent as usize].head
    }

    /// The class of the cell that this agent takes.
    pub fn class(&self, agent: u32) -> CellClass
        requires { agent < length self.now.agents }
        ensures { class_at self.now agent ≡ Some result }
    {
        self.agents.as_slice()[agent as usize].class
    }

    /// The number of places of this agent, its principal port among them.
    pub fn places(&self, agent: u32) -> u8
        requires { agent < length self.now.agents }
        ensures { places_at self.now agent ≡ Some result }
    {
        self.head(agent).places()
    }

    /// The other end of the wire at this place of this agent. The principal port is place 0.
    pub fn end(&self, agent: u32, place: u8) -> Joint
        requires { IsPlaceOf self.now agent place }
        ensures { joint_at self.now (ToAgent agent place) ≡ Some result }
    {
        let first = self.agents.as_slice()[agent as usize].mark;
        self.joints.as_slice()[first as usize + place as usize].joint()
    }

    /// The number of its boundary ends.
    pub fn boundary_ends(&self) -> u32
        ensures { result ≡ length self.now.joints }
    {
        u32::from(self.boundary)
    }

    /// The other end of the wire at this boundary end.
    pub fn joint(&self, end: u16) -> Joint
        requires { end < length self.now.joints }
        ensures { joint_at self.now (ToBoundary end) ≡ Some result }
    {
        self.joints.as_slice()[end as usize].joint()
    }

    /// The number of active pairs among its agents.
    pub fn pairs(&self) -> u32
        ensures { result ≡ length self.now.pairs }
    {
        self.pairs.len() as u32
    }

    /// The active pair of that number, in the order of the pairs' wires in the text: its two agents, the constructor first.
    pub fn pair(&self, number: u32) -> (u32, u32)
        requires { number < length self.now.pairs }
        ensures { slice_get self.now.pairs number ≡ Some result }
    {
        self.pairs.as_slice()[number as usize]
    }
}
