// An interaction with a right member that a worker placed.
ghost use Rattle.std.specs.Prelude.{◌≡◌, ◌<◌, length};
ghost use Rattle.in_arena.specs.Bags.{IsBagOf};
ghost use Rattle.in_reducer.specs.Inside.{KeepsAll, reducer_view};
ghost use Rattle.in_reducer.specs.Lent.{AreSettled};
ghost use Rattle.in_reducer.specs.Steps.{StepsAt};
ghost use Rattle.in_reducer.specs.Templates.{IsTemplateAt};

use crate::body::Body;
use in_base::use_promise;
use in_compile::PlacedTemplate;
use std::mem;

impl<'a> Body<'a> {
    /// Does the interaction of the first pair. Its template is placed in cells on lease from the arena: these become live, and are joined to
    /// the present partners of the pair's ports. Other cells may be on lease, and stay so. It takes no memory.
    pub fn stitch(&mut self, done: PlacedTemplate)
        requires all { KeepsAll self.old }
        requires pair { 0 < length self.old.queue.items }
        requires template { IsTemplateAt (reducer_view self.old) 0 done.template }
        requires of { IsBagOf done.placed.bag self.old.arena }
        ensures all { KeepsAll self.new }
        ensures steps { StepsAt (reducer_view self.old) 0 (reducer_view self.new) }
        ensures settled { AreSettled done.entry.placed.bag self.old.arena self.new.arena }
        ensures program { self.new.checked ≡ self.old.checked }
    {
        use_promise!(done.is_of_template());
        let template = done.template();
        use_promise!(template.member().is_sound());
        let settled = done.settle(&mut self.arena);
        let own = mem::replace(&mut self.tools.placed, settled);
        self.finish(template, 0);
        self.tools.placed = own;
    }
}
