//! Jobs that workers do in threads.
ghost use Rattle.std.specs.Prelude.{◌≤◌, ◌*◌, IsSome, IsTrue};
ghost use Rattle.in_arena.specs.Arenas.{NoneLeased, free_of};
ghost use Rattle.in_arena.specs.declared.content.CellClass.{CellClass as Class};
ghost use Rattle.in_compile.specs.Templates.{AreTemplatesOf, template_at};
ghost use Rattle.in_rounds.specs.Gathers.{bags_of};
ghost use Rattle.in_rounds.specs.Holding.{HaveAllLeased};

use crate::gathers::is_pair;
use in_arena::{Arena, CellClass};
use in_base::use_promise;
use in_check::Checked;
use in_compile::{Need, Templates};
use in_harness_texts::{Sheet, small};
use in_rounds::{Gather, NoGate, Plan, gather_jobs};
use in_syntax::SymbolNo;
use std::sync::Wait;
use std::thread::Threads;

/// The number of cells of each class that a worker has.
const SHARE: u32 = 8;

/// Whether `workers` workers may have these cells each.
fn are_shares(arena: &Arena, workers: u32) -> bool
    requires { workers ≤ 64 }
    ensures { IsTrue result → (c : Class) → workers * SHARE ≤ free_of arena.now c }
{
    workers * SHARE <= Need::free_in(arena).least()
}

/// 1 if a result of the job is kept, otherwise 0; its cells are then freed.
fn taken(arena: &mut Arena, gather: &mut Gather, job: u32) -> u32
    requires { HaveAllLeased (bags_of gather.old.slots) arena.old }
    ensures all { HaveAllLeased (bags_of gather.new.slots) arena.new }
    ensures one { result ≤ 1 }
{
    match gather.take(job) {
        Some(done) => {
            done.spend(arena);
            1
        }
        None => 0,
    }
}

/// The number of kept results of six jobs; their cells are then freed.
fn kept(arena: &mut Arena, gather: &mut Gather) -> u32
    requires { HaveAllLeased (bags_of gather.old.slots) arena.old }
    ensures { HaveAllLeased (bags_of gather.new.slots) arena.new }
{
    let mut kept = 0;
    for job in 0..6 {
        kept += taken(arena, gather, job);
    }
    kept
}

/// The number of jobs of six that this many workers do, each with eight cells of each class; whether there are fewer threads than workers, and
/// whether all cells are free again.
fn add_done<R: Threads + Wait>(
    rt: &R,
    sheet: &mut Sheet,
    program: &Checked,
    templates: &Templates,
    arena: &mut Arena,
    workers: u32,
)
    requires some { 1 ≤ workers }
    requires most { workers ≤ 64 }
    requires whole { NoneLeased arena.old }
    requires of { AreTemplatesOf program.now.program templates.now }
    requires next { IsSome (template_at templates.now 1 2) }
    ensures { NoneLeased arena.new }
{
    let before = arena.free_count(CellClass::Small);
    if !are_shares(arena, workers) {
        return;
    }
    use_promise!(program.is_accepted());
    let next = (SymbolNo(1), SymbolNo(2));
    let jobs = [next, next, next, next, next, next];
    let plan = Plan::new(templates, &jobs);
    let share = Need::each(SHARE);
    let Ok((mut gather, threads)) = gather_jobs(
        rt,
        sheet.alloc,
        &plan,
        workers,
        share,
        arena,
        &NoGate,
    ) else {
        return sheet.fail();
    };
    let found = kept(arena, &mut gather);
    gather.spend(arena);
    sheet.fill("# ", &[found as u64]);
    sheet.show(&(threads < workers));
    sheet.say(" ");
    sheet.show(&(arena.free_count(CellClass::Small) == before));
    sheet.say("\n");
}

/// The same of the workers of the words, 1 to 64.
pub fn add_workers<R: Threads + Wait>(
    rt: &R,
    sheet: &mut Sheet,
    program: &Checked,
    templates: &Templates,
    arena: &mut Arena,
    words: &[String],
)
    requires whole { NoneLeased arena.old }
    requires of { AreTemplatesOf program.now.program templates.now }
    ensures { NoneLeased arena.new }
{
    let workers = small(words, 2);
    if workers < 1 || workers > 64 {
        return;
    }
    if is_pair(program, templates, SymbolNo(1), SymbolNo(2)) {
        add_done(rt, sheet, program, templates, arena, workers);
    }
}
