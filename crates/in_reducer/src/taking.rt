// Interactions of the first pairs, or of the last ones, one after another.
ghost use Rattle.std.specs.Prelude.{◌≡◌, ◌⊎◌, ◌↔◌, ◌≤◌, ◌<◌, ◌+◌, ◌-◌, ◌*◌, ℕ, IsTrue, true, false, [], length, Some, IsSome, slice_get};
ghost use Rattle.in_arena.specs.declared.content.CellClass.{CellClass};
ghost use Rattle.in_syntax.specs.declared.symbol_no.SymbolNo.{SymbolNo as Symbol};
ghost use Rattle.in_compile.specs.Cells.{count_of};
ghost use Rattle.in_compile.specs.Templates.{AreTemplatesOf};
ghost use Rattle.in_reducer.specs.Parting.{ReducesTo};
ghost use Rattle.in_reducer.specs.Same.{RunsUpToNumbers, StepsUpToNumbers};
ghost use Rattle.in_reducer.specs.Steps.{HasRoomAt};
ghost use Rattle.in_reducer.specs.Taking.{HasRoomBesides, HasRoomOn, TakesNoLast, together};
ghost use Rattle.in_reducer.specs.Templates.{HasHeadsAt, IsTemplateAt};

use crate::reducer::Reducer;
use in_arena::CellClass;
use in_base::use_promise;
use in_compile::{Need, Template, Templates};
use in_syntax::SymbolNo;

/// The number of pairs whose symbols are read together, so that their cells are fetched at once: more than eight gain nothing. This project's own
/// choice.
const TOGETHER: usize = 8;

/// The ways in which pairs are taken.
const OLDEST: u8 = 0;

const TOGETHER_READ: u8 = 1;

const NEWEST: u8 = 2;

/// The number of times that `need` cells are in `free` ones: `u64::MAX` if none is needed.
fn times_in(need: u32, free: u32) -> u64
    ensures { result * need ≤ free }
{
    if need == 0 {
        u64::MAX
    } else {
        u64::from(free / need)
    }
}

impl<'a> Reducer<'a> {
    /// Reads the symbols of the first `TOGETHER` pairs. There must be at least as many.
    #[inline(always)]
    fn read_heads(&self, heads: &mut [(SymbolNo, SymbolNo); TOGETHER])
        requires { together ≤ length self.now.queue }
        ensures read { (k : ℕ) (h : Symbol × Symbol) → slice_get heads.new k ≡ Some h → HasHeadsAt self.now k h }
        ensures long { length heads.new ≡ together }
    {
        for number in 0..TOGETHER as u32 {
            heads[number as usize] = self.body.heads(number);
        }
    }

    /// The interaction of the first pair, up to numbers. There must be a pair, and its cells must be free. The templates are those of the program.
    /// It takes no memory.
    #[inline(always)]
    fn step_oldest(&mut self, templates: &Templates)
        requires templates { AreTemplatesOf self.old.program templates.now }
        requires pair { 0 < length self.old.queue }
        requires room { HasRoomAt self.old 0 }
        ensures { StepsUpToNumbers self.old 0 self.new }
    {
        let pair = self.pair(0);
        let template = self.template(templates, 0);
        self.step_here::<OLDEST>(template, 0, pair);
    }

    /// The same, where the pair's symbols were read.
    #[inline(always)]
    fn step_read(&mut self, templates: &Templates, heads: (SymbolNo, SymbolNo))
        requires templates { AreTemplatesOf self.old.program templates.now }
        requires heads { HasHeadsAt self.old 0 heads }
        requires room { HasRoomAt self.old 0 }
        ensures { StepsUpToNumbers self.old 0 self.new }
    {
        let pair = self.pair(0);
        let template = self.template_by(templates, 0, heads);
        self.step_here::<TOGETHER_READ>(template, 0, pair);
    }

    /// Does the interactions of the first `TOGETHER` pairs, one after another, up to numbers. There must be as many pairs, and their cells must be
    /// free. The pairs' symbols are read before: so their cells are fetched at once. The templates are those of the program. It takes no memory.
    #[inline(always)]
    fn take_together(&mut self, templates: &Templates)
        requires templates { AreTemplatesOf self.old.program templates.now }
        requires pairs { together ≤ length self.old.queue }
        requires room { HasRoomOn together self.old }
        ensures { RunsUpToNumbers self.old together self.new }
    {
        use_promise!(self.pairs());
        let mut heads = [(SymbolNo(0), SymbolNo(0)); TOGETHER];
        self.read_heads(&mut heads);
        for number in 0..TOGETHER {
            self.step_read(templates, heads[number]);
        }
    }

    /// A number of interactions that have the cells that they need, for any of the templates: the number of times that the largest need is in
    /// the free cells.
    fn room_for_any(&self, templates: &Templates) -> u64
        requires { AreTemplatesOf self.now.program templates.now }
        ensures { HasRoomOn result self.now }
    {
        use_promise!(self.pairs());
        let need = templates.largest_need();
        let free = self.vacant();
        let mut many = u64::MAX;
        for class in CellClass::ALL {
            many = many.min(times_in(need.of(class), free.of(class)));
        }
        many
    }

    /// A number of next interactions, at most `most`, that surely have the cells that they need. It is 0 only if no pair
    /// is left, or the cells for the first one aren't free. So free cells aren't counted at each interaction. The templates are those of the program.
    #[inline(never)]
    fn sure_steps(&self, templates: &Templates, most: u64) -> u64
        requires { AreTemplatesOf self.now.program templates.now }
        ensures room { HasRoomOn result self.now }
        ensures most { result ≤ most }
        ensures none { result ≡ 0 → (most ≡ 0) ⊎ ((self.now.queue ≡ []) ⊎ (HasRoomAt self.now 0 → ⊥)) }
    {
        let any = self.room_for_any(templates);
        if any > 0 {
            return any.min(most);
        }
        if most == 0 || self.pairs() == 0 || !self.has_room(templates, 0) {
            return 0;
        }
        1
    }

    /// Does `sure` interactions of the first pair of the queue, one after another, up to numbers. Their cells must be free. It does fewer only if no
    /// pair is left. Returns their number. The templates are those of the program. It takes no memory.
    fn take_sure(&mut self, templates: &Templates, sure: u64) -> u64
        requires { AreTemplatesOf self.old.program templates.now × HasRoomOn sure self.old }
        ensures runs { RunsUpToNumbers self.old result self.new }
        ensures most { result ≤ sure }
        ensures fewer { result < sure → self.new.queue ≡ [] }
    {
        use_promise!(self.pairs());
        let mut left = sure;
        while left > 0 {
            let pairs = self.pairs() as usize;
            if pairs == 0 {
                return sure - left;
            }
            if pairs >= TOGETHER && left >= TOGETHER as u64 {
                self.take_together(templates);
                left -= TOGETHER as u64;
            } else {
                self.step_oldest(templates);
                left -= 1;
            }
        }
        sure
    }

    /// Does interactions of the first pair of the queue, one after another, at most `most`, first in, first out. It does fewer only if no pair is
    /// left, or the cells for the first one aren't free. Returns their number. They are those of a reducer that is this one up to the numbers of
    /// agents: a new agent may have the number of one that is gone. The templates are those of the program. It takes no memory.
    pub fn take_first(&mut self, templates: &Templates, most: u64) -> u64
        requires { AreTemplatesOf self.old.program templates.now }
        ensures runs { RunsUpToNumbers self.old result self.new }
        ensures most { result ≤ most }
        ensures fewer { result < most → (self.new.queue ≡ []) ⊎ (HasRoomAt self.new 0 → ⊥) }
    {
        use_promise!(self.pairs());
        let mut count = 0;
        while count < most {
            let sure = self.sure_steps(templates, most - count);
            if sure == 0 {
                return count;
            }
            let more = self.take_sure(templates, sure);
            count += more;
            if more < sure {
                return count;
            }
        }
        count
    }

    /// Whether the cells for the template of the pair of that number are free, and `floor` more of each class.
    #[inline(always)]
    fn fits_besides(&self, template: &Template, number: u32, floor: u32) -> bool
        requires { IsTemplateAt self.now number template.now }
        ensures { IsTrue result ↔ HasRoomBesides self.now number floor }
    {
        let _ = number;
        Need::free_in(&self.body.arena).has_besides(template.need(), floor)
    }

    /// Does the interaction of the last pair, up to numbers, if its cells are free and `floor` more of each class. Returns whether it was
    /// done. There must be a pair.
    #[inline(always)]
    fn step_last(&mut self, templates: &Templates, floor: u32) -> bool
        requires templates { AreTemplatesOf self.old.program templates.now }
        requires pair { 0 < length self.old.queue }
        ensures done { result ≡ true → StepsUpToNumbers self.old (length self.old.queue - 1) self.new × HasRoomBesides self.old (length self.old.queue - 1) floor }
        ensures none { result ≡ false → (self.new ≡ self.old) × (HasRoomBesides self.old (length self.old.queue - 1) floor → ⊥) }
    {
        let number = self.pairs() - 1;
        let pair = self.pair(number);
        let template = self.template(templates, number);
        if !self.fits_besides(template, number, floor) {
            return false;
        }
        self.step_here::<NEWEST>(template, number, pair);
        true
    }

    /// Does interactions of the last pair of the queue, one after another, at most `most`, the newest pair first: the newest agents are still in the
    /// cache, and a net that is reduced from there stays small. It does fewer only if no pair is left, or the cells for the last one aren't free with
    /// `floor` cells of each class besides. Returns their number. The templates are those of the program. It takes no memory.
    pub fn take_newest(&mut self, templates: &Templates, floor: u32, most: u64) -> u64
        requires { AreTemplatesOf self.old.program templates.now }
        ensures reduces { ReducesTo self.old result self.new }
        ensures most { result ≤ most }
        ensures floor { ((c : CellClass) → floor ≤ count_of self.old.vacant c) → (c : CellClass) → floor ≤ count_of self.new.vacant c }
        ensures fewer { result < most → TakesNoLast floor self.new }
    {
        let mut count = 0;
        while count < most {
            if self.pairs() == 0 || !self.step_last(templates, floor) {
                return count;
            }
            count += 1;
        }
        count
    }
}
