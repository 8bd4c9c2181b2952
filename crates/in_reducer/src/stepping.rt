// One interaction of a reducer.
ghost use Rattle.std.specs.Prelude.{◌≡◌, ◌⊎◌, ◌<◌, ◌≤◌, ◌↔◌, true, false, IsTrue, [], length, IsSome, Some, slice_get, vec_capacity};
ghost use Rattle.in_arena.specs.Arenas.{ArenaView};
ghost use Rattle.in_compile.specs.Templates.{AreTemplatesOf};
ghost use Rattle.in_net.specs.Parts.{symbol_in};
ghost use Rattle.in_reducer.specs.Inside.{AreAsBefore, KeepsNet, StandsBeside, most_ends, over, reducer_view};
ghost use Rattle.in_reducer.specs.Machines.{parts_of};
ghost use Rattle.in_reducer.specs.Same.{StepsUpToNumbers};
ghost use Rattle.in_reducer.specs.Standing.{AreLeasedAlike};
ghost use Rattle.in_reducer.specs.Steps.{NeedsAt, HasRoomAt, StepsAt};
ghost use Rattle.in_reducer.specs.Templates.{HasHeadsAt, IsTemplateAt};

use crate::body::Body;
use crate::interacting::interact;
use crate::queueing::{queue_made, queue_own, take_out};
use crate::reducer::Reducer;
use crate::sides::{Pair, PlacedPair};
use crate::wiring::{queue_begun, wire_anew, wire_up};
use in_arena::CellNo;
use in_base::use_promise;
use in_compile::{Need, Template, Templates};
use in_syntax::SymbolNo;

impl<'a> Body<'a> {
    /// The symbol of an agent.
    pub(crate) fn symbol(&self, cell: CellNo) -> SymbolNo
        requires { IsSome (symbol_in (parts_of (reducer_view self.now)) cell.0) }
        ensures { symbol_in (parts_of (reducer_view self.now)) cell.0 ≡ Some result }
    {
        SymbolNo(self.arena.symbol(cell))
    }

    /// The symbols of the pair of that number, in the pair's order.
    pub fn heads(&self, number: u32) -> (SymbolNo, SymbolNo)
        requires net { KeepsNet self.now }
        requires pair { number < length self.now.queue.items }
        ensures { HasHeadsAt (reducer_view self.now) number result }
    {
        let (one, other) = self.queue.at(number as usize);
        (self.symbol(CellNo(one)), self.symbol(CellNo(other)))
    }

    /// The interaction of the pair of that number. The right member of its template is beside it, in the cells that the tools name.
    /// The pair leaves the queue, and the new pairs come last: first those over boundary ends, by the lowest-numbered one on the path that
    /// made each, then the right member's own. It takes no memory.
    #[inline(always)]
    pub(crate) fn finish(&mut self, template: &Template, number: u32)
        requires beside { (a : ArenaView) × StandsBeside self.old a number template.now }
        requires made { (self.old.tools.made.items ≡ []) × (most_ends ≤ vec_capacity self.old.tools.made) }
        ensures steps { (a : ArenaView) → StandsBeside self.old a number template.now → StepsAt (reducer_view (over a self.old)) number (reducer_view self.new) }
        ensures net { KeepsNet self.new }
        ensures leased { AreLeasedAlike self.old.arena self.new.arena }
        ensures tools { AreAsBefore self.old.tools self.new.tools }
        ensures program { self.new.checked ≡ self.old.checked }
    {
        let (one, other) = self.queue.at(number as usize);
        let own = self.free.len() as u32;
        let next = PlacedPair {
            pair: Pair {
                one: CellNo(one),
                other: CellNo(other),
                first_ends: template.first_ends(),
            },
            template,
            placed: &self.tools.placed,
            own,
        };
        take_out(&mut self.queue, number as usize);
        interact(
            self.checked.symbols(),
            &next,
            &mut self.arena,
            self.ends.as_mut_slice(),
            &mut self.tools.made,
        );
        queue_made(&mut self.tools.made, &mut self.queue);
        queue_own(template.member(), &self.tools.placed, &mut self.queue);
    }
}

impl<'a> Reducer<'a> {
    /// The template of the pair of that number, by its symbols: they match, and match one rule. The templates are those of the program.
    #[inline(always)]
    pub(crate) fn template_by<'b>(
        &self,
        templates: &'b Templates,
        number: u32,
        heads: (SymbolNo, SymbolNo),
    ) -> &'b Template
        requires { AreTemplatesOf self.now.program templates.now × HasHeadsAt self.now number heads }
        ensures { IsTemplateAt self.now number result.now }
    {
        use_promise!(self.pairs());
        let _ = number;
        templates.of(heads.0, heads.1)
    }

    /// The template of the pair of that number, as above.
    #[inline(always)]
    pub(crate) fn template<'b>(&self, templates: &'b Templates, number: u32) -> &'b Template
        requires templates { AreTemplatesOf self.now.program templates.now }
        requires pair { number < length self.now.queue }
        ensures { IsTemplateAt self.now number result.now }
    {
        self.template_by(templates, number, self.body.heads(number))
    }

    /// The number of cells of each class for the interaction of the pair of that number: the agents of its rule's right member. They have to be free
    /// before the pair is retired. The templates are those of the program.
    pub fn need_of(&self, templates: &Templates, number: u32) -> Need
        requires templates { AreTemplatesOf self.now.program templates.now }
        requires pair { number < length self.now.queue }
        ensures { NeedsAt self.now number result }
    {
        self.template(templates, number).need()
    }

    /// Whether the cells that the pair of that number needs are free, so that `step` may do its interaction. The templates are those of the program.
    pub fn has_room(&self, templates: &Templates, number: u32) -> bool
        requires templates { AreTemplatesOf self.now.program templates.now }
        requires pair { number < length self.now.queue }
        ensures { IsTrue result ↔ HasRoomAt self.now number }
    {
        self.fits(self.template(templates, number), number)
    }

    /// Whether the cells that the template of the pair of that number needs are free.
    #[inline(always)]
    fn fits(&self, template: &Template, number: u32) -> bool
        requires { IsTemplateAt self.now number template.now }
        ensures { IsTrue result ↔ HasRoomAt self.now number }
    {
        let need = template.need();
        let short = need.first_short(Need::free_in(&self.body.arena));
        short.is_none()
    }

    /// The interaction of the pair of that number, as by `step`. Wires may lead back to the pair.
    fn step_beside(&mut self, template: &Template, number: u32)
        requires at { IsTemplateAt self.old number template.now }
        requires room { HasRoomAt self.old number }
        ensures { StepsAt self.old number self.new }
    {
        let body = &mut self.body;
        body.tools.placed.put(template.member(), &mut body.arena);
        body.finish(template, number);
    }

    /// The interaction of the pair of that number, as by `step`, if neither symbol of the pair is marked: the wires of the right member are
    /// written in place.
    #[inline(always)]
    fn step_in_place(&mut self, template: &Template, number: u32)
        requires at { IsTemplateAt self.old number template.now }
        requires room { HasRoomAt self.old number }
        requires unmarked { IsTrue template.now.unmarked }
        ensures { StepsAt self.old number self.new }
    {
        let body = &mut self.body;
        let (one, other) = body.queue.at(number as usize);
        let pair = Pair {
            one: CellNo(one),
            other: CellNo(other),
            first_ends: template.first_ends(),
        };
        use_promise!(body.arena.cells());
        take_out(&mut body.queue, number as usize);
        wire_up(
            template,
            pair,
            &mut body.arena,
            body.ends.as_mut_slice(),
            body.tools.points.as_mut_slice(),
            &mut body.queue,
        );
        queue_begun(
            template.member(),
            body.tools.points.as_slice(),
            &mut body.queue,
        );
    }

    /// The interaction of the pair of that number, as by `step`.
    #[inline(always)]
    pub(crate) fn step_by(&mut self, template: &Template, number: u32)
        requires at { IsTemplateAt self.old number template.now }
        requires room { HasRoomAt self.old number }
        ensures { StepsAt self.old number self.new }
    {
        if template.is_unmarked() {
            self.step_in_place(template, number);
        } else {
            self.step_beside(template, number);
        }
    }

    /// The interaction of the pair of that number, by the rule of its symbols: Lafont 1990's, which replaces the pair by the right member. The pair
    /// leaves the queue, and the new pairs come last: first those over boundary ends, by the lowest-numbered one on the path that made each, then
    /// the right member's own. The cells of the pair become free, and those of the new agents live. The cells that the pair needs have to be free
    /// before it is retired. The templates are those of the program. It takes no memory.
    pub fn step(&mut self, templates: &Templates, number: u32)
        requires templates { AreTemplatesOf self.old.program templates.now }
        requires pair { number < length self.old.queue }
        requires room { HasRoomAt self.old number }
        ensures { StepsAt self.old number self.new }
    {
        let template = self.template(templates, number);
        self.step_by(template, number);
    }

    /// The interaction of the pair of that number, these agents, up to numbers, if neither symbol of the pair is marked. The pair's cells are freed before
    /// the agents of the right member are placed, which then reuse them if they can.
    #[inline(always)]
    fn step_anew<const ORDER: u8>(
        &mut self,
        template: &Template,
        number: u32,
        agents: (CellNo, CellNo),
    )
        requires there { slice_get self.old.queue number ≡ Some (agents.0.0, agents.1.0) }
        requires at { IsTemplateAt self.old number template.now }
        requires room { HasRoomAt self.old number }
        requires unmarked { IsTrue template.now.unmarked }
        ensures { StepsUpToNumbers self.old number self.new }
    {
        let body = &mut self.body;
        let pair = Pair {
            one: agents.0,
            other: agents.1,
            first_ends: template.first_ends(),
        };
        use_promise!(body.arena.cells());
        take_out(&mut body.queue, number as usize);
        wire_anew::<ORDER>(
            template,
            pair,
            &mut body.arena,
            body.ends.as_mut_slice(),
            body.tools.points.as_mut_slice(),
            &mut body.queue,
        );
        queue_begun(
            template.member(),
            body.tools.points.as_slice(),
            &mut body.queue,
        );
    }

    /// The interaction of the pair of that number, these agents, up to numbers. `ORDER` changes nothing: it makes a copy of the code for each order in
    /// which pairs are taken, since a copy with one caller is compiled into that caller's loop.
    #[inline(always)]
    pub(crate) fn step_here<const ORDER: u8>(
        &mut self,
        template: &Template,
        number: u32,
        agents: (CellNo, CellNo),
    )
        requires there { slice_get self.old.queue number ≡ Some (agents.0.0, agents.1.0) }
        requires at { IsTemplateAt self.old number template.now }
        requires room { HasRoomAt self.old number }
        ensures { StepsUpToNumbers self.old number self.new }
    {
        if template.is_unmarked() {
            self.step_anew::<ORDER>(template, number, agents);
        } else {
            self.step_beside(template, number);
        }
    }
}
