// The results, kept by the numbers of their jobs.
ghost use Rattle.std.specs.Prelude.{◌≡◌, ◌⊎◌, ◌<◌, true, false, [], IfOk, replicate, length, Some, slice_get};
ghost use Rattle.in_rounds.specs.declared.gather.JobState.TheVariants.{Fresh, Kept, Taken};
ghost use Rattle.in_rounds.specs.Dones.{DoneParts};
ghost use Rattle.in_rounds.specs.Gathers.{bags_of, new_gather, Puts, TakesDone};
ghost use Rattle.in_rounds.specs.Holding.{AreBagsOf, Returns};

use crate::done::Done;
use in_arena::Arena;
use in_syntax::SymbolNo;
use std::alloc::{AllocError, Global};
use std::marker::Model;
use std::mem;

/// The reason why a `Done` isn't kept: a result of its job was put before, or the list has no job of its number with its symbols.
#[derive(Clone, Copy, Debug, PartialEq, Eq)]
pub enum Why {
    Double,
    Stranger,
}

/// The state of a job: no result was put yet, the result is kept, or the result was put and taken.
#[derive(Drop)]
pub(crate) enum JobState<'t> {
    Fresh,
    Kept(Done<'t>),
    Taken,
}

/// Keeps the result of each job of a list, by the job's number. The jobs of a round and their order are this project's own choice.
///
/// Spend it: the cells of its results are leased until then.
#[derive(Drop)]
pub struct Gather<'t> {
    jobs: Vec<(SymbolNo, SymbolNo)>,
    slots: Vec<JobState<'t>>,
}

impl<'t> Model for Gather<'t> {
    ghost use Rattle.std.specs.Prelude.{◌≡◌, length};
    ghost use Rattle.in_rounds.specs.Gathers.{GatherParts};

    ghost Value = { GatherParts };

    ghost view = { λ g. record { jobs = g.jobs.items; slots = g.slots.items } };

    ghost invariant = { λ g. length g.slots.items ≡ length g.jobs.items };
}

/// A slot for each job, without a result.
fn fresh<'t>(alloc: Global, count: usize) -> Result<Vec<JobState<'t>>, AllocError>
    ensures { IfOk result (λ v. v.items ≡ replicate count Fresh) }
{
    let mut slots = Vec::with_capacity(alloc, count)?;
    for _made in 0..count {
        slots.push_reserved(JobState::Fresh);
    }
    Ok(slots)
}

/// Whether the list has this job, with these symbols.
fn has_job(jobs: &[(SymbolNo, SymbolNo)], done: &Done) -> bool
    ensures yes { result ≡ true → slice_get jobs.now done.now.job ≡ Some done.now.heads }
    ensures no_job { result ≡ false → slice_get jobs.now done.now.job ≡ Some done.now.heads → ⊥ }
{
    let (constructor, destructor) = done.heads();
    match jobs.get(done.job() as usize) {
        Some(heads) => heads.0 == constructor && heads.1 == destructor,
        None => false,
    }
}

/// Whether no result was put for the job, which is in the list.
fn is_fresh(slots: &[JobState], job: u32) -> bool
    requires { job < length slots.now }
    ensures yes { result ≡ true → slice_get slots.now job ≡ Some Fresh }
    ensures other { result ≡ false → ((d : DoneParts) × (slice_get slots.now job ≡ Some (Kept d))) ⊎ (slice_get slots.now job ≡ Some Taken) }
{
    match &slots[job as usize] {
        JobState::Fresh => true,
        JobState::Kept(_) | JobState::Taken => false,
    }
}

/// Frees the cells of all slots.
fn spend_all(mut slots: Vec<JobState>, arena: &mut Arena)
    requires { AreBagsOf (bags_of slots.items) arena.old }
    ensures { Returns (bags_of slots.entry.items) [] arena.old arena.new }
{
    while let Some(slot) = slots.pop() {
        if let JobState::Kept(done) = slot {
            done.spend(arena);
        }
    }
}

impl<'t> Gather<'t> {
    /// A gather without results. The list has for each job, by its number, the symbols of its pair, the constructor first. Refused only when out
    /// of memory.
    pub fn new(alloc: Global, jobs: &[(SymbolNo, SymbolNo)]) -> Result<Gather<'t>, AllocError>
        ensures { IfOk result (λ g. g ≡ new_gather jobs.now) }
    {
        let slots = fresh(alloc, jobs.len())?;
        let jobs = Vec::from_slice(alloc, jobs)?;
        Ok(Gather { jobs, slots })
    }

    /// Keeps a result for its job. It is refused, and handed back, if the list has no job of its number with its symbols (`Stranger`, tested
    /// first), or if a result of that job was put before (`Double`), also if it was taken.
    pub fn put(&mut self, done: Done<'t>) -> Result<(), (Done<'t>, Why)>
        ensures { Puts self.old done.entry result self.new }
    {
        if !has_job(self.jobs.as_slice(), &done) {
            return Err((done, Why::Stranger));
        }
        let job = done.job();
        if !is_fresh(self.slots.as_slice(), job) {
            return Err((done, Why::Double));
        }
        self.slots[job as usize] = JobState::Kept(done);
        Ok(())
    }

    /// Takes out the result for the job of that number, if one is kept.
    pub fn take(&mut self, job: u32) -> Option<Done<'t>>
        ensures { TakesDone self.old job result self.new }
    {
        let index = job as usize;
        if index >= self.slots.len() {
            return None;
        }
        if let JobState::Kept(_) = &self.slots[index] {
            match mem::replace(&mut self.slots[index], JobState::Taken) {
                JobState::Kept(done) => Some(done),
                // The slot was tested just now, and it keeps one.
                _ => unreachable!(),
            }
        } else {
            None
        }
    }

    /// Frees the cells of all results that were put and not taken. They must be of this arena. It takes no memory.
    pub fn spend(self, arena: &mut Arena)
        requires { AreBagsOf (bags_of self.slots) arena.old }
        ensures { Returns (bags_of self.entry.slots) [] arena.old arena.new }
    {
        let Gather { jobs: _, slots } = self;
        spend_all(slots, arena);
    }
}
