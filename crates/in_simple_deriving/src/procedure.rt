ghost use Rattle.std.specs.Prelude.{◌≡◌, ◌<◌, ◌-◌, ◌++◌, ◌∷◌, [], drop, length, map, reverse, true, IfOk, OnOk, MatchOption, MatchResult};
ghost use Rattle.in_open_nets.specs.Derivations.{IsDerivation};
ghost use Rattle.in_open_nets.specs.Stuck.{IsStuckNet, IsUndone};
ghost use Rattle.in_simple_deriving.specs.Procedure.{AreFewer, AreMakes, IsWork, PassesSteps, StartsWork};
ghost use Rattle.in_simple_deriving.specs.Outcomes.{IsDerivingOutcome};
ghost use Rattle.in_simple_deriving.specs.Stacks.{AdvancesTasks, AreLast, EndsInWhole, IsLastLeft, IsUnderWay, MakesStep, loose_in};
ghost use Rattle.in_simple_deriving.specs.TakenOrder.{AreTaken, links_from};
ghost use Rattle.in_simple_deriving.specs.declared.plans.Task.TheVariants.{Derive, Make};

use crate::heads::{Headed, Heads};
use crate::plans::{StackStep, Task, tasks_of};
use crate::turns::NodeTurns;
use in_base::use_promise;
use in_open_nets::{Derivation, OpenNet, OpenPoint, Step, Stuck, Undone, Wired};
use in_syntax::with_room;
use sqlite_items::Items;
use std::alloc::{AllocError, Global};

/// The tasks that are left, the first one last, the steps so far, and those that no step names yet.
#[derive(Drop)]
pub(crate) struct Work<'a> {
    pub(crate) tasks: Items<Task<'a>>,
    pub(crate) steps: Items<Step>,
    pub(crate) roots: Items<u32>,
}

/// The last of these, in their order.
fn last_of(alloc: Global, roots: &Items<u32>, count: usize) -> Result<Items<u32>, AllocError>
    ensures { IfOk result (λ last. last ≡ drop (length roots.now - count) roots.now) }
{
    let count = count.min(roots.len());
    let first = roots.len() - count;
    let mut last = with_room(alloc, count)?;
    for root in first..roots.len() {
        last.push(roots.as_slice()[root])?;
    }
    Ok(last)
}

impl<'a> Work<'a> {
    /// The tasks come first.
    fn expand(&mut self, tasks: Items<Task<'a>>) -> Result<(), AllocError>
        ensures tasks { OnOk result (reverse self.new.tasks ≡ tasks.entry ++ reverse self.old.tasks) }
        ensures steps { self.new.steps ≡ self.old.steps }
        ensures roots { self.new.roots ≡ self.old.roots }
    {
        let mut left = tasks;
        while let Some(task) = left.pop() {
            self.tasks.push(task)?;
        }
        Ok(())
    }

    /// One more step. With more than 4,294,967,296 of them it is out of memory.
    fn push(&mut self, step: Step) -> Result<(), AllocError>
        ensures tasks { self.new.tasks ≡ self.old.tasks }
        ensures steps { OnOk result (self.new.steps ≡ self.old.steps ++ step ∷ []) }
        ensures roots { OnOk result (self.new.roots ≡ self.old.roots ++ length self.old.steps ∷ []) }
    {
        match u32::try_from(self.steps.len()) {
            Ok(number) => {
                self.steps.push(step)?;
                self.roots.push(number)
            }
            Err(_) => Err(AllocError),
        }
    }

    /// The last step that no step names.
    fn pop(&mut self) -> u32
        ensures tasks { self.new.tasks ≡ self.old.tasks }
        ensures steps { self.new.steps ≡ self.old.steps }
        ensures roots { IsLastLeft result self.old.roots self.new.roots }
    {
        self.roots.pop().unwrap_or(0)
    }

    /// Forgets the last steps that no step names.
    fn forget(&mut self, count: usize)
        ensures tasks { self.new.tasks ≡ self.old.tasks }
        ensures steps { self.new.steps ≡ self.old.steps }
        ensures roots { AreLast count self.old.roots self.new.roots }
    {
        for root in 0..count {
            self.pop();
        }
    }

    /// A step over the last ones that no step names.
    fn make(&mut self, alloc: Global, joint: StackStep) -> Result<(), AllocError>
        ensures tasks { self.new.tasks ≡ self.old.tasks }
        ensures made { OnOk result (MakesStep joint self.old.steps self.old.roots self.new.steps self.new.roots) }
    {
        match joint {
            StackStep::Empty => self.push(Step::Empty),
            StackStep::Link(wire) => self.push(Step::Link { wire }),
            StackStep::Given(node) => self.push(Step::Given { node }),
            StackStep::Graft(node, count) => {
                let classes = last_of(alloc, &self.roots, count)?;
                self.forget(count);
                self.push(Step::Graft { node, classes })
            }
            StackStep::Cut(wire) => {
                let b = self.pop();
                let a = self.pop();
                self.push(Step::Cut { wire, a, b })
            }
            StackStep::Mix => {
                let b = self.pop();
                let a = self.pop();
                self.push(Step::Mix { a, b })
            }
        }
    }

    /// Makes steps until a part is to be derived.
    fn next_part(&mut self, alloc: Global) -> Result<Option<Headed<'a>>, AllocError>
        ensures tasks { IfOk result (λ next. MatchOption next
            (PassesSteps (reverse self.old.tasks) [])
            (λ part. PassesSteps (reverse self.old.tasks) (Derive part ∷ reverse self.new.tasks))) }
        ensures steps { IfOk result (λ next. MatchOption next
            (AdvancesTasks (reverse self.old.tasks) self.old.steps self.old.roots [] self.new.steps self.new.roots)
            (λ part. AdvancesTasks (reverse self.old.tasks) self.old.steps self.old.roots (Derive part ∷ reverse self.new.tasks) self.new.steps self.new.roots)) }
    {
        while let Some(task) = self.tasks.pop() {
            match task {
                Task::Derive(part) => return Ok(Some(part)),
                Task::Make(joint) => self.make(alloc, joint)?,
            }
        }
        Ok(None)
    }
}

/// Whether the wire is between two free ends.
fn is_loose(open: &OpenNet, wire: usize) -> bool
    requires { wire < length «open».now.wires }
    ensures { result ≡ loose_in «open».now wire }
{
    matches!(open.wire(wire), (OpenPoint::Free(_), OpenPoint::Free(_)))
}

/// A Link of each wire between free ends, beside the earlier ones; or the empty net, if there is nothing.
fn loose<'a>(alloc: Global, open: &OpenNet, begun: bool) -> Result<Items<Task<'a>>, AllocError>
    ensures makes { IfOk result AreMakes }
    ensures steps { IfOk result (EndsInWhole «open».now begun) }
    ensures order { IfOk result (λ tasks. tasks ≡ map Make (links_from «open».now begun 0 (length «open».now.wires))) }
{
    let mut tasks = Items::new(alloc);
    let mut some = begun;
    for wire in 0..open.wires() {
        if is_loose(open, wire) {
            tasks.push(Task::Make(StackStep::Link(wire as u32)))?;
            if some {
                tasks.push(Task::Make(StackStep::Mix))?;
            }
            some = true;
        }
    }
    if !some {
        tasks.push(Task::Make(StackStep::Empty))?;
    }
    Ok(tasks)
}

/// The tasks of the whole open net.
fn start<'a>(
    alloc: Global,
    open: &OpenNet,
    heads: &'a Heads<'a>,
) -> Result<Items<Task<'a>>, AllocError>
    requires { heads.now.net ≡ «open».now }
    ensures work { IfOk result (StartsWork «open».now) }
    ensures steps { IfOk result (λ tasks. IsUnderWay «open».now tasks [] []) }
{
    let count = open.nodes();
    if count > 0 {
        let mut tasks = Items::new(alloc);
        tasks.push(Task::Derive(Headed::whole(heads)))?;
        tasks.append(loose(alloc, open, true)?)?;
        Ok(tasks)
    } else {
        loose(alloc, open, false)
    }
}

/// The tasks of the whole open net, and no step yet.
fn begin<'a>(alloc: Global, open: &OpenNet, heads: &'a Heads<'a>) -> Result<Work<'a>, AllocError>
    requires { heads.now.net ≡ «open».now }
    ensures work { IfOk result (λ work. IsWork «open».now (reverse work.tasks)) }
    ensures steps { IfOk result (λ work. IsUnderWay «open».now (reverse work.tasks) work.steps work.roots) }
{
    let tasks = start(alloc, open, heads)?;
    // There is a step for each node; how many wires need one isn't known yet, often few.
    let nodes = open.nodes() as usize;
    let mut work = Work {
        tasks: Items::new(alloc),
        steps: with_room(alloc, nodes + nodes / 8 + 8)?,
        roots: Items::new(alloc),
    };
    work.expand(tasks)?;
    Ok(work)
}

/// Takes the first node that splits the part out of it; or returns the part's nodes, if no node splits it.
fn take<'a>(
    alloc: Global,
    wired: &'a Wired<'a>,
    work: &mut Work<'a>,
    part: Headed<'a>,
) -> Result<Option<Stuck>, AllocError>
    requires work { IsWork wired.now (Derive part ∷ reverse work.old.tasks) }
    requires steps { IsUnderWay wired.now (Derive part ∷ reverse work.old.tasks) work.old.steps work.old.roots }
    ensures { IfOk result (λ found. MatchOption found
        (IsWork wired.now (reverse work.new.tasks) × AreFewer wired.now (Derive part.entry ∷ reverse work.old.tasks) (reverse work.new.tasks) × IsUnderWay wired.now (reverse work.new.tasks) work.new.steps work.new.roots)
        (IsStuckNet wired.now)) }
{
    use_promise!(wired.nodes());
    if part.is_taken_apart() {
        let tasks = tasks_of(alloc, wired, part)?;
        work.expand(tasks)?;
        Ok(None)
    } else {
        Ok(Some(part.stuck(alloc)?))
    }
}

/// Takes nodes out until none is left, or a part is stuck.
fn finish<'a>(
    alloc: Global,
    wired: &'a Wired<'a>,
    work: &mut Work<'a>,
) -> Result<Option<Stuck>, AllocError>
    requires work { IsWork wired.now (reverse work.old.tasks) }
    requires steps { IsUnderWay wired.now (reverse work.old.tasks) work.old.steps work.old.roots }
    ensures { IfOk result (λ found. MatchOption found (IsDerivation wired.now work.new.steps × AreTaken wired.now work.new.steps) (IsStuckNet wired.now)) }
{
    while let Some(part) = work.next_part(alloc)? {
        let stuck = take(alloc, wired, work, part)?;
        if stuck.is_some() {
            return Ok(stuck);
        }
    }
    use_promise!(wired.nodes());
    Ok(None)
}

/// A derivation, or the first stuck sub-net.
#[derive(Drop)]
enum DerivingOutcome {
    Derived(Derivation),
    First(Stuck),
}

/// Runs the procedure, with what each node meets.
fn come_to<'a>(
    alloc: Global,
    open: &OpenNet,
    wired: &'a Wired<'a>,
    heads: &'a Heads<'a>,
) -> Result<DerivingOutcome, AllocError>
    requires net { wired.now ≡ «open».now }
    requires heads { heads.now.net ≡ «open».now }
    ensures { IfOk result (IsDerivingOutcome «open».now) }
{
    let mut work = begin(alloc, open, heads)?;
    match finish(alloc, wired, &mut work)? {
        None => {
            let Work {
                tasks: _,
                steps,
                roots: _,
            } = work;
            Ok(DerivingOutcome::Derived(Derivation { steps }))
        }
        Some(stuck) => Ok(DerivingOutcome::First(stuck)),
    }
}

/// Runs the procedure on an open net.
fn attempt(alloc: Global, open: &OpenNet) -> Result<DerivingOutcome, AllocError>
    ensures { IfOk result (IsDerivingOutcome «open».now) }
{
    let wired = Wired::of(alloc, open)?;
    let order = NodeTurns::of(alloc, &wired)?;
    let heads = Heads::of(alloc, &order)?;
    come_to(alloc, open, &wired, &heads)
}

/// The steps that build the open net: the first node in order that splits it is taken out, then each component that is left is
/// derived, and they are joined, in one order, which determines the steps. Refused with the first stuck sub-net in
/// that order, or when out of memory. Lafont 1990 asks whether a net is semi-simple; the order is this project's own choice.
pub fn derive(alloc: Global, open: &OpenNet) -> Result<Derivation, Undone>
    ensures steps { MatchResult result (λ derivation. IsDerivation «open».now derivation.steps) (IsUndone «open».now) }
    ensures order { IfOk result (λ derivation. AreTaken «open».now derivation.steps) }
{
    match attempt(alloc, open) {
        Ok(DerivingOutcome::Derived(derivation)) => Ok(derivation),
        Ok(DerivingOutcome::First(stuck)) => Err(Undone::Stuck(stuck)),
        Err(error) => Err(Undone::Memory(error)),
    }
}
