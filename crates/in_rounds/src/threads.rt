// Work on several parts, each in its own thread.
ghost use Rattle.std.specs.Prelude.{◌≡◌, ◌≤◌, ◌<◌, ◌+◌, ◌∷◌, [], All, vec_len, vec_capacity};
ghost use Rattle.std.specs.List.{AllZip};

use std::snapshot::Snapshot;
use std::sync::Wait;
use std::thread;
use std::thread::{Promise, PromisedHandle, Threads};

/// The work on a part: if the part is ready, the work makes a result of it.
pub(crate) trait Work<P> {
    ghost is_ready: { Self → P → Type 0 };

    ghost is_worked: { Self → P → P → Type 0 };

    fn work(&self, part: P) -> P
        requires { is_ready self.now part }
        ensures { is_worked self.now part result };
}

/// The result that this work makes of this part.
#[derive(Drop)]
pub(crate) struct Kept<P, W> {
    work: Snapshot<W>,
    part: Snapshot<P>,
}

impl<P, W: Work<P>> Promise<P> for Kept<P, W> {
    ghost kept_by = { λ p r. W.is_worked p.work.value p.part.value r };
}

/// A part on which a thread works, or one that was done here, since no thread could be started.
#[derive(Drop)]
pub(crate) enum Begun<P, W: Work<P>> {
    There(PromisedHandle<P, Kept<P, W>>),
    Here(P),
}

/// Works on one part here, and on each other one in its own thread, or here if no thread can be started. Returns the number of threads. The two
/// lists have the required room, so no memory is taken once work has begun.
pub(crate) fn all<P: Send + Drop, W: Work<P> + Sync, R: Threads + Wait>(
    rt: &R,
    work: &W,
    mine: P,
    others: Vec<P>,
    begun: Vec<Begun<P, W>>,
    done: Vec<P>,
) -> (Vec<P>, u32)
    requires mine { W.is_ready work.now mine }
    requires others { All (W.is_ready work.now) others.items }
    requires few { vec_len others < 64 }
    requires room { (begun.items ≡ []) × (vec_len others ≤ vec_capacity begun) × (done.items ≡ []) × (vec_len others + 1 ≤ vec_capacity done) }
    ensures works { AllZip (W.is_worked work.now) (mine ∷ others.items) result.0.items }
    ensures threads { result.1 ≤ vec_len others }
{
    thread::scope(
        thread::scope_env(),
        rt,
        |scope| -> (Vec<P>, u32)
            requires { W.is_ready work.now mine × All (W.is_ready work.now) others.items × (vec_len others < 64) × (begun.items ≡ []) × (vec_len others ≤ vec_capacity begun) × (done.items ≡ []) × (vec_len others + 1 ≤ vec_capacity done) }
            ensures { AllZip (W.is_worked work.entry.now) (mine ∷ others.items) result.0.items × (result.1 ≤ vec_len others) }
        {
            let mut others = others;
            let mut begun = begun;
            let mut threads = 0;
            while let Some(part) = others.pop() {
                let kept = Kept {
                    work: Snapshot::of(work),
                    part: Snapshot::of(&part),
                };
                let run = move || -> P
                    requires { W.is_ready work.now part }
                    ensures { W.is_worked work.entry.now part result }
                { work.work(part) };
                match scope.spawn_with(kept, run) {
                    Ok(handle) => {
                        threads += 1;
                        begun.push_reserved(Begun::There(handle));
                    }
                    Err(refused) => begun.push_reserved(Begun::Here((refused.value)())),
                }
            }
            let mut done = done;
            done.push_reserved(work.work(mine));
            while let Some(one) = begun.pop() {
                match one {
                    Begun::There(handle) => done.push_reserved(handle.join(rt)),
                    Begun::Here(part) => done.push_reserved(part),
                }
            }
            (done, threads)
        },
    )
}
