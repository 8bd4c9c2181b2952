// A template and its accessors.
ghost use Rattle.std.specs.Prelude.{◌≡◌, ◌≤◌, ◌<◌, length, Some, slice_get};
ghost use Rattle.in_syntax.specs.TextLimits.{most_member_agents};
ghost use Rattle.in_compile.specs.declared.joints.Joint.TheVariants.{ToAgent, ToBoundary};
ghost use Rattle.in_compile.specs.Members.{symbol_at, class_at, places_at, joint_at, IsPlaceOf};
ghost use Rattle.in_compile.specs.OwnOrders.{FitsOrder};
ghost use Rattle.in_compile.specs.Wires.{first_agent_slot, over_of, within_of};

use crate::cells::Need;
use crate::joints::Joint;
use crate::member::Member;
use crate::wires::{OverWire, WithinWire};
use in_arena::CellClass;
use in_base::use_invariant;
use in_syntax::SymbolNo;
use sqlite_items::Items;
use std::marker::Model;

/// How the first two agents of a right member take the cells of the rule's pair.
#[derive(Clone, Copy)]
pub struct OwnOrder {
    /// The first one has the second cell, and the second one the first: so more of them have a cell of their class.
    pub turned: bool,
    /// Both have a cell of their class.
    pub both: bool,
}

/// The right member of a rule, with the data that join it in the place of the rule's active pair: its boundary ends are the auxiliary ports of the
/// rule's two symbols, those of the first one first.
#[derive(Drop)]
pub struct Template {
    pub(crate) member: Member,
    pub(crate) first_ends: u8,
    pub(crate) unmarked: bool,
    pub(crate) heads: (SymbolNo, SymbolNo),
    pub(crate) classes: (CellClass, CellClass),
    pub(crate) own: OwnOrder,
    pub(crate) over: Items<OverWire>,
    pub(crate) within: Items<WithinWire>,
    pub(crate) outputs: Items<bool>,
}

// Contracts see its fields. Of the lists of wires they see only that these are its member's.
impl Model for Template {
    ghost use Rattle.in_compile.specs.Templates.{TemplateParts};
    ghost use Rattle.in_compile.specs.TemplateInside.{IsTemplate};

    ghost Value = { TemplateParts };

    ghost view = { λ t. record { heads = t.heads; classes = t.classes; first_ends = t.first_ends; unmarked = t.unmarked; outputs = t.outputs; member = t.member } };

    ghost invariant = { IsTemplate };
}

impl Template {
    /// The rule's two symbols, the constructor first.
    pub fn heads(&self) -> (SymbolNo, SymbolNo)
        ensures { result ≡ self.now.heads }
    {
        self.heads
    }

    /// The classes of the cells that agents of these symbols take.
    #[inline(always)]
    pub fn classes(&self) -> (CellClass, CellClass)
        ensures { result ≡ self.now.classes }
    {
        self.classes
    }

    /// How its first two agents take the pair's cells.
    #[inline(always)]
    pub fn own_order(&self) -> OwnOrder
        ensures { FitsOrder result self.now.member self.now.classes }
    {
        self.own
    }

    /// Its boundary ends and its agents are few enough that each has its own slot, for proofs. The call does nothing.
    pub fn is_small(&self)
        ensures ends { length self.now.member.joints ≤ first_agent_slot }
        ensures agents { length self.now.member.agents ≤ most_member_agents }
    {
        use_invariant!(self.first_ends);
    }

    /// The right member.
    pub fn member(&self) -> &Member
        ensures { result.now ≡ self.now.member }
    {
        &self.member
    }

    /// The number of cells of each class that its agents take.
    pub fn need(&self) -> Need
        ensures { result ≡ self.now.member.need }
    {
        self.member.need()
    }

    /// The number of its agents, at most `in_syntax::MOST_MEMBER_AGENTS`. They are numbered from 0, as in the right member.
    pub fn agents(&self) -> u32
        ensures { result ≡ length self.now.member.agents }
    {
        self.member.agents()
    }

    /// The symbol of the agent of that number.
    pub fn symbol(&self, agent: u32) -> SymbolNo
        requires { agent < length self.now.member.agents }
        ensures { symbol_at self.now.member agent ≡ Some result }
    {
        self.member.symbol(agent)
    }

    /// The class of the cell that this agent takes.
    pub fn class(&self, agent: u32) -> CellClass
        requires { agent < length self.now.member.agents }
        ensures { class_at self.now.member agent ≡ Some result }
    {
        self.member.class(agent)
    }

    /// The number of places of this agent, its principal port among them.
    pub fn places(&self, agent: u32) -> u8
        requires { agent < length self.now.member.agents }
        ensures { places_at self.now.member agent ≡ Some result }
    {
        self.member.places(agent)
    }

    /// The other end of the wire at this place of this agent. The principal port is place 0.
    pub fn end(&self, agent: u32, place: u8) -> Joint
        requires { IsPlaceOf self.now.member agent place }
        ensures { joint_at self.now.member (ToAgent agent place) ≡ Some result }
    {
        self.member.end(agent, place)
    }

    /// The number of its boundary ends: the auxiliary ports of its two symbols.
    pub fn boundary_ends(&self) -> u8
        ensures { result ≡ length self.now.member.joints }
    {
        self.member.boundary_ends() as u8
    }

    /// The number of boundary ends that are ports of its first symbol: they come first, in the order of their places.
    pub fn first_ends(&self) -> u8
        ensures { result ≡ self.now.first_ends }
    {
        self.first_ends
    }

    /// Whether neither of its symbols is marked: then no wire of a sound net leads from an auxiliary port of the rule's pair back to one.
    #[inline(always)]
    pub fn is_unmarked(&self) -> bool
        ensures { result ≡ self.now.unmarked }
    {
        self.unmarked
    }

    /// Whether the port of this boundary end is an output of the rule's pair. Its partner is then an input, otherwise an output.
    #[inline(always)]
    pub fn is_output(&self, end: u8) -> bool
        requires { end < length self.now.outputs }
        ensures { slice_get self.now.outputs end ≡ Some result }
    {
        self.outputs.as_slice()[end as usize]
    }

    /// The other end of the wire at this boundary end.
    pub fn joint(&self, end: u8) -> Joint
        requires { end < length self.now.member.joints }
        ensures { joint_at self.now.member (ToBoundary end) ≡ Some result }
    {
        self.member.joint(u16::from(end))
    }

    /// The wires that have a boundary end, each once, by its lowest boundary end and its other end, in the order of these boundary ends.
    #[inline(always)]
    pub fn over(&self) -> &[OverWire]
        ensures { result.now ≡ over_of self.now.member }
    {
        self.over.as_slice()
    }

    /// The wires between two places of agents, each once, from its first place in the order of agents and places.
    #[inline(always)]
    pub fn within(&self) -> &[WithinWire]
        ensures { result.now ≡ within_of self.now.member }
    {
        self.within.as_slice()
    }

    /// The number of active pairs among its agents.
    pub fn pairs(&self) -> u32
        ensures { result ≡ length self.now.member.pairs }
    {
        self.member.pairs()
    }

    /// The active pair of that number, in the order of the pairs' wires in the text: its two agents, the constructor first.
    pub fn pair(&self, number: u32) -> (u32, u32)
        requires { number < length self.now.member.pairs }
        ensures { slice_get self.now.member.pairs number ≡ Some result }
    {
        self.member.pair(number)
    }
}
