// The owner's part of a round: the workers' results are stitched in, one interaction at a time.
ghost use Rattle.std.specs.Prelude.{◌≡◌, ◌≤◌, ◌<◌, ◌+◌, true, length};
ghost use Rattle.in_arena.specs.Bags.{IsBagOf};
ghost use Rattle.in_compile.specs.Templates.{AreTemplatesOf};
ghost use Rattle.in_rounds.specs.Gathers.{bags_of};
ghost use Rattle.in_rounds.specs.Holding.{HaveAllLeased};
ghost use Rattle.in_reducer.specs.Inside.{IsKept, KeepsAll, KeepsNet, reducer_view};
ghost use Rattle.in_reducer.specs.Lent.{AreSettled};
ghost use Rattle.in_reducer.specs.Runs.{Runs};
ghost use Rattle.in_reducer.specs.Templates.{HasHeadsAt};
ghost use Rattle.in_rounds.specs.Bringing.{AreMadeWith};

use crate::done::Done;
use crate::gather::Gather;
use in_base::use_promise;
use in_compile::Templates;
use in_reducer::Body;

/// Whether this result is for the symbols of the first pair.
fn is_for_first(body: &Body, done: &Done) -> bool
    requires net { KeepsNet body.now }
    requires pair { 0 < length body.now.queue.items }
    ensures { result ≡ true → HasHeadsAt (reducer_view body.now) 0 done.now.heads }
{
    let (constructor, destructor) = body.heads(0);
    let (first, second) = done.heads();
    constructor == first && destructor == second
}

/// Frees the cells of a job that was placed.
fn put_back(body: &mut Body, done: Done)
    requires all { KeepsAll body.old }
    requires of { IsBagOf done.placed.placed.bag body.old.arena }
    ensures all { KeepsAll body.new }
    ensures same { reducer_view body.new ≡ reducer_view body.old }
    ensures settled { AreSettled done.entry.placed.placed.bag body.old.arena body.new.arena }
    ensures program { body.new.checked ≡ body.old.checked }
    ensures queue { body.new.queue ≡ body.old.queue }
{
    done.spend(&mut body.arena);
}

/// Stitches in the results of the jobs in turn, from the first one on, each at the first pair of the queue. It ends at the first job without a
/// result. Returns the number of stitched jobs.
pub(crate) fn stitch_all<'t>(
    body: &mut Body,
    templates: &Templates,
    jobs: u32,
    gather: &mut Gather<'t>,
) -> u32
    requires all { KeepsAll body.old }
    requires templates { AreTemplatesOf body.old.checked.now.program templates.now }
    requires made { AreMadeWith templates.now gather.old.slots }
    requires lent { HaveAllLeased (bags_of gather.old.slots) body.old.arena }
    requires jobs { jobs ≤ length body.old.queue.items }
    ensures all { KeepsAll body.new }
    ensures lent { HaveAllLeased (bags_of gather.new.slots) body.new.arena }
    ensures runs { Runs (reducer_view body.old) result (reducer_view body.new) }
    ensures most { result ≤ jobs }
    ensures left { jobs ≤ result + length body.new.queue.items }
    ensures program { body.new.checked ≡ body.old.checked }
{
    for job in 0..jobs {
        let Some(done) = gather.take(job) else {
            return job;
        };
        if !is_for_first(body, &done) {
            put_back(body, done);
            return job;
        }
        use_promise!(done.is_its_template());
        body.stitch(done.into_placed());
    }
    jobs
}

/// Frees the cells of the results left in the gather. Then no cell is on lease.
pub(crate) fn give_back<'t>(body: &mut Body, gather: Gather<'t>)
    requires all { KeepsAll body.old }
    requires lent { HaveAllLeased (bags_of gather.slots) body.old.arena }
    ensures kept { IsKept body.new }
    ensures same { reducer_view body.new ≡ reducer_view body.old }
    ensures program { body.new.checked ≡ body.old.checked }
{
    gather.spend(&mut body.arena);
}
