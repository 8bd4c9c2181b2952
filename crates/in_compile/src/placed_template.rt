// A template in leased cells, as a value.
ghost use Rattle.std.specs.Prelude.{◌≡◌, ◌≤◌, ◌<◌, length, Some, slice_get};
ghost use Rattle.in_arena.specs.Bags.{IsBagOf, AreOfOne};
ghost use Rattle.in_arena.specs.States.{Vacant};
ghost use Rattle.in_compile.specs.declared.joints.Joint.TheVariants.{ToBoundary};
ghost use Rattle.in_compile.specs.Cells.{count_of, IsEnough};
ghost use Rattle.in_compile.specs.Members.{joint_at};
ghost use Rattle.in_compile.specs.PlacedTemplates.{IsOfTemplate};
ghost use Rattle.in_compile.specs.Placing.{IsPlacedMember, TakesCells, HasNoCell};
ghost use Rattle.in_compile.specs.Stocks.{held, Regains};

use crate::joints::Joint;
use crate::placed::Placed;
use crate::placing::place_into;
use crate::stock::Stock;
use crate::template::Template;
use in_arena::{Arena, CellNo};
use in_base::use_invariant;
use std::marker::Model;

/// A template with its right member in leased cells, all of it and nothing else, so that no caller has to show that they belong together.
/// It must be settled or spent, as `Placed` must: both give back the room that it was placed in.
#[derive(Drop)]
pub struct PlacedTemplate<'a> {
    template: &'a Template,
    placed: Placed,
}

impl<'a> Model for PlacedTemplate<'a> {
    ghost use Rattle.in_compile.specs.Placing.{IsPlacedMember};
    ghost use Rattle.in_compile.specs.PlacedTemplates.{PlacedTemplateParts};

    ghost Value = { PlacedTemplateParts };

    ghost view = { λ p. record { template = p.template.now; placed = p.placed } };

    ghost invariant = { λ p. IsPlacedMember p.template.now.member p.placed };
}

/// Places the right member of a template, as `place_into` does. The stock has to hold the template's need; `room` has to have no cells, to be
/// of the stock's arena, and to have room for the template's agents. It takes no memory.
pub fn place<'a>(template: &'a Template, stock: &mut Stock, room: Placed) -> PlacedTemplate<'a>
    requires holds { IsEnough (count_of template.now.member.need) (held stock.old) }
    requires room { length template.now.member.agents ≤ room.room }
    requires of_one { AreOfOne stock.old.bag room.bag }
    requires empty { HasNoCell room.bag }
    ensures template { result.template ≡ template.now }
    ensures placed { IsPlacedMember template.now.member result.placed }
    ensures takes { TakesCells template.now.member.need result.placed.cells stock.old stock.new }
    ensures same { AreOfOne room.bag result.placed.bag × (result.placed.room ≡ room.room) }
{
    let mut placed = room;
    place_into(template.member(), stock, &mut placed);
    PlacedTemplate { template, placed }
}

impl<'a> PlacedTemplate<'a> {
    /// The placed member is the template's right member, for proofs. The call does nothing.
    pub fn is_of_template(&self)
        ensures { IsOfTemplate self.now }
    {
        use_invariant!(self.template);
    }

    /// The template.
    pub fn template(&self) -> &'a Template
        ensures { result.now ≡ self.now.template }
    {
        self.template
    }

    /// The number of its agents: each agent of the template has a cell.
    pub fn agents(&self) -> u32
        ensures cells { result ≡ length self.now.placed.cells }
        ensures template { result ≡ length self.now.template.member.agents }
    {
        self.placed.agents()
    }

    /// The cell of the agent of that number.
    pub fn cell(&self, agent: u32) -> CellNo
        requires { agent < length self.now.template.member.agents }
        ensures { slice_get self.now.placed.cells agent ≡ Some result }
    {
        self.placed.cell(agent)
    }

    /// The other end of the wire at this boundary end of the template.
    pub fn joint(&self, end: u8) -> Joint
        requires { end < length self.now.template.member.joints }
        ensures { joint_at self.now.template.member (ToBoundary end) ≡ Some result }
    {
        self.template.joint(end)
    }

    /// Makes its cells live with their content. The returned room has no cells, but still their numbers, and can be placed into
    /// again. It takes no memory.
    pub fn settle(self, arena: &mut Arena) -> Placed
        requires { IsBagOf self.placed.bag arena.old }
        ensures arena { Regains (λ x. x) arena.old self.entry.placed.bag arena.new }
        ensures numbers { (result.cells ≡ self.entry.placed.cells) × (result.room ≡ self.entry.placed.room) }
        ensures bag { HasNoCell result.bag × AreOfOne self.entry.placed.bag result.bag }
    {
        let PlacedTemplate {
            template: _,
            mut placed,
        } = self;
        placed.settle(arena);
        placed
    }

    /// Frees its cells. The returned room is as after `settle`. It takes no memory.
    pub fn spend(self, arena: &mut Arena) -> Placed
        requires { IsBagOf self.placed.bag arena.old }
        ensures arena { Regains (λ _. Vacant) arena.old self.entry.placed.bag arena.new }
        ensures numbers { (result.cells ≡ self.entry.placed.cells) × (result.room ≡ self.entry.placed.room) }
        ensures bag { HasNoCell result.bag × AreOfOne self.entry.placed.bag result.bag }
    {
        let PlacedTemplate {
            template: _,
            mut placed,
        } = self;
        placed.spend(arena);
        placed
    }
}
