//! Jobs that are put in a gather and taken from it.
ghost use Rattle.std.specs.Prelude.{◌≡◌, [], ◌∷◌, IsTrue, IsSome, MatchOption};
ghost use Rattle.in_arena.specs.Arenas.{NoneLeased};
ghost use Rattle.in_arena.specs.Bags.{AreOfOne, empty_bag};
ghost use Rattle.in_compile.specs.Templates.{AreTemplatesOf, template_at};
ghost use Rattle.in_rounds.specs.Gathers.{bags_of};
ghost use Rattle.in_rounds.specs.Holding.{HaveAllLeased};
ghost use Rattle.in_rounds.specs.Laws.{Shares};

use in_arena::{Arena, CellClass};
use in_base::use_promise;
use in_check::Checked;
use in_compile::{Need, Placed, Stock, Templates};
use in_harness_texts::{Sheet, are_free, small, word};
use in_rounds::{Done, Gather, Why};
use in_syntax::SymbolNo;
use std::alloc::Global;

/// Two symbols by their numbers, the words at this index and the next.
fn pair_at(words: &[String], at: usize) -> (SymbolNo, SymbolNo) {
    let first = SymbolNo(small(words, at));
    (first, SymbolNo(small(words, at.saturating_add(1))))
}

/// Whether two symbols match, so there is a template for them.
pub fn is_pair(checked: &Checked, templates: &Templates, c: SymbolNo, d: SymbolNo) -> bool
    requires { AreTemplatesOf checked.now.program templates.now }
    ensures { IsTrue result → IsSome (template_at templates.now c.0 d.0) }
{
    let symbols = checked.symbols();
    if c.0 >= symbols.symbols() || d.0 >= symbols.symbols() {
        return false;
    }
    symbols.matching(c, d)
}

/// The placed member of a job, in cells of the stock; `None` if the stock may hold too few, or when out of memory.
fn made<'t>(
    alloc: Global,
    templates: &'t Templates,
    arena: &Arena,
    stock: &mut Stock,
    job: u32,
    pair: (SymbolNo, SymbolNo),
) -> Option<Done<'t>>
    requires rule { IsSome (template_at templates.now pair.0.0 pair.1.0) }
    requires of_one { AreOfOne (empty_bag arena.now) stock.old.bag }
    ensures { MatchOption result (stock.new ≡ stock.old) (λ d. Shares (stock.new.bag ∷ []) (d.placed.placed.bag ∷ []) (stock.old.bag ∷ []) × AreOfOne stock.old.bag stock.new.bag × AreOfOne stock.old.bag d.placed.placed.bag) }
{
    if !stock.holds(templates.largest_need()) {
        return None;
    }
    let template = templates.of(pair.0, pair.1);
    let Ok(room) = Placed::empty(alloc, arena, template.agents()) else {
        return None;
    };
    Some(Done::make(job, pair.0, pair.1, templates, stock, room))
}

fn reason(why: Why) -> &'static str {
    match why {
        Why::Double => "double",
        Why::Stranger => "stranger",
    }
}

/// Does a job and puts its result; if it comes back, its cells are freed.
fn put<'t>(
    alloc: Global,
    templates: &'t Templates,
    arena: &mut Arena,
    stock: &mut Stock,
    gather: &mut Gather<'t>,
    job: u32,
    pair: (SymbolNo, SymbolNo),
) -> &'static str
    requires rule { IsSome (template_at templates.now pair.0.0 pair.1.0) }
    requires all { HaveAllLeased (stock.old.bag ∷ bags_of gather.old.slots) arena.old }
    ensures { HaveAllLeased (stock.new.bag ∷ bags_of gather.new.slots) arena.new }
{
    let Some(done) = made(alloc, templates, arena, stock, job, pair) else {
        return "not made";
    };
    match gather.put(done) {
        Ok(()) => "ok",
        Err((back, why)) => {
            back.spend(arena);
            reason(why)
        }
    }
}

/// Whether a result is kept for the job; its cells are then freed.
fn taken(arena: &mut Arena, stock: &Stock, gather: &mut Gather, job: u32) -> &'static str
    requires { HaveAllLeased (stock.now.bag ∷ bags_of gather.old.slots) arena.old }
    ensures { HaveAllLeased (stock.now.bag ∷ bags_of gather.new.slots) arena.new }
{
    match gather.take(job) {
        Some(done) => {
            done.spend(arena);
            "some"
        }
        None => "none",
    }
}

/// Answers the words from this one on: `put JOB ONE OTHER` or `take JOB`; `None` for other words.
fn answered<'t>(
    alloc: Global,
    program: &Checked,
    templates: &'t Templates,
    arena: &mut Arena,
    stock: &mut Stock,
    gather: &mut Gather<'t>,
    words: &[String],
    at: usize,
) -> &'static str
    requires of { AreTemplatesOf program.now.program templates.now }
    requires all { HaveAllLeased (stock.old.bag ∷ bags_of gather.old.slots) arena.old }
    ensures { HaveAllLeased (stock.new.bag ∷ bags_of gather.new.slots) arena.new }
{
    let job = small(words, at.saturating_add(1));
    let pair = pair_at(words, at.saturating_add(2));
    match word(words, at) {
        "put" => {
            if is_pair(program, templates, pair.0, pair.1) {
                put(alloc, templates, arena, stock, gather, job, pair)
            } else {
                "no pair"
            }
        }
        "take" => taken(arena, stock, gather, job),
        _ => "",
    }
}

/// The same of all words from this one on.
fn add_answers<'t>(
    sheet: &mut Sheet,
    program: &Checked,
    templates: &'t Templates,
    arena: &mut Arena,
    stock: &mut Stock,
    gather: &mut Gather<'t>,
    words: &[String],
)
    requires of { AreTemplatesOf program.now.program templates.now }
    requires all { HaveAllLeased (stock.old.bag ∷ bags_of gather.old.slots) arena.old }
    ensures { HaveAllLeased (stock.new.bag ∷ bags_of gather.new.slots) arena.new }
{
    for at in 6..words.len() {
        let said = answered(
            sheet.alloc,
            program,
            templates,
            arena,
            stock,
            gather,
            words,
            at,
        );
        if !said.is_empty() {
            sheet.say(said);
            sheet.say(" ");
        }
    }
}

/// The number of free small cells.
fn add_free(sheet: &mut Sheet, arena: &Arena) {
    sheet.fill("#\n", &[arena.free_count(CellClass::Small) as u64]);
}

/// The results of a row of puts and takes, over a list of two jobs; and the number of free small cells before, once the stock is spent, and once the
/// gather is.
pub fn add_gather(
    sheet: &mut Sheet,
    program: &Checked,
    templates: &Templates,
    arena: &mut Arena,
    words: &[String],
)
    requires whole { NoneLeased arena.old }
    requires of { AreTemplatesOf program.now.program templates.now }
    ensures { NoneLeased arena.new }
{
    let need = Need::each(16);
    if !are_free(arena, need) {
        return;
    }
    add_free(sheet, arena);
    let jobs = [pair_at(words, 2), pair_at(words, 4)];
    let Ok(mut gather) = Gather::new(sheet.alloc, &jobs) else {
        return sheet.fail();
    };
    use_promise!(arena.cells());
    let Ok(mut stock) = Stock::fill(sheet.alloc, arena, need) else {
        return sheet.fail();
    };
    add_answers(
        sheet,
        program,
        templates,
        arena,
        &mut stock,
        &mut gather,
        words,
    );
    stock.spend(arena);
    add_free(sheet, arena);
    gather.spend(arena);
    add_free(sheet, arena);
}
