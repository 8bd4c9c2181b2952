// The result of a job that a worker did.
ghost use Rattle.std.specs.Prelude.{◌≡◌, ◌≤◌, length, IsSome, Some};
ghost use Rattle.in_arena.specs.Bags.{IsBagOf, AreOfOne};
ghost use Rattle.in_arena.specs.States.{Vacant};
ghost use Rattle.in_compile.specs.Cells.{count_of, IsEnough};
ghost use Rattle.in_compile.specs.Placing.{TakesCells, HasNoCell};
ghost use Rattle.in_compile.specs.Stocks.{held, Regains};
ghost use Rattle.in_compile.specs.Templates.{template_at, TemplateParts};
ghost use Rattle.in_rounds.specs.Dones.{IsItsTemplate};

use in_arena::Arena;
use in_base::{use_invariant, use_promise};
use in_compile::{Placed, PlacedTemplate, Stock, Templates, place};
use in_syntax::SymbolNo;
use std::marker::Model;

/// The template of a job's active pair, placed in leased cells. It names the job and the symbols of its pair, the constructor first, and its
/// invariant is that the placed template is the one for these symbols, of the templates that made it.
///
/// Spend it, or take it apart and settle it: its cells are leased until then.
#[derive(Drop)]
pub struct Done<'t> {
    job: u32,
    heads: (SymbolNo, SymbolNo),
    templates: &'t Templates,
    placed: PlacedTemplate<'t>,
}

impl<'t> Model for Done<'t> {
    ghost use Rattle.in_rounds.specs.Dones.{DoneParts, IsItsTemplate};

    ghost Value = { DoneParts };

    ghost view = { λ d. record { job = d.job; heads = d.heads; templates = d.templates.now; placed = d.placed } };

    ghost invariant = { λ d. IsItsTemplate (record { job = d.job; heads = d.heads; templates = d.templates.now; placed = d.placed }) };
}

impl<'t> Done<'t> {
    /// Places the template for a job whose pair has these symbols, the constructor first, in cells of the stock. There must be a template for the
    /// two, and the stock must hold its need. `room` must have no cells, be of the stock's arena, and have room for the template's agents. It takes
    /// no memory.
    pub fn make(
        job: u32,
        constructor: SymbolNo,
        destructor: SymbolNo,
        templates: &'t Templates,
        stock: &mut Stock,
        room: Placed,
    ) -> Done<'t>
        requires rule { IsSome (template_at templates.now constructor.0 destructor.0) }
        requires holds { (t : TemplateParts) → template_at templates.now constructor.0 destructor.0 ≡ Some t → IsEnough (count_of t.member.need) (held stock.old) }
        requires room { (t : TemplateParts) → template_at templates.now constructor.0 destructor.0 ≡ Some t → length t.member.agents ≤ room.room }
        requires of_one { AreOfOne stock.old.bag room.bag }
        requires empty { HasNoCell room.bag }
        ensures job { result.job ≡ job }
        ensures heads { result.heads ≡ (constructor, destructor) }
        ensures templates { result.templates ≡ templates.now }
        ensures template { IsItsTemplate result }
        ensures takes { TakesCells result.placed.template.member.need result.placed.placed.cells stock.old stock.new }
        ensures same { AreOfOne room.bag result.placed.placed.bag }
    {
        let template = templates.of(constructor, destructor);
        let placed = place(template, stock, room);
        use_promise!(placed.is_of_template());
        Done {
            job,
            heads: (constructor, destructor),
            templates,
            placed,
        }
    }

    /// The number of its job.
    pub fn job(&self) -> u32
        ensures { result ≡ self.now.job }
    {
        self.job
    }

    /// The symbols of its job's pair, the constructor first.
    pub fn heads(&self) -> (SymbolNo, SymbolNo)
        ensures { result ≡ self.now.heads }
    {
        self.heads
    }

    /// The placed template is that of its pair: proofs use this. The call does nothing.
    pub fn is_its_template(&self)
        ensures { IsItsTemplate self.now }
    {
        use_invariant!(self.placed);
    }

    /// The placed template.
    pub fn into_placed(self) -> PlacedTemplate<'t>
        ensures { result ≡ self.entry.placed }
    {
        let Done {
            job: _,
            heads: _,
            templates: _,
            placed,
        } = self;
        placed
    }

    /// Frees its cells. It must be of this arena. It takes no memory.
    pub fn spend(self, arena: &mut Arena)
        requires { IsBagOf self.placed.placed.bag arena.old }
        ensures { Regains (λ _. Vacant) arena.old self.entry.placed.placed.bag arena.new }
    {
        let _room = self.into_placed().spend(arena);
    }
}
