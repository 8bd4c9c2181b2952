// One worker's part of a round.
ghost use Rattle.std.specs.Prelude.{◌≡◌, ◌<◌, ◌⊎◌, true, false, vec_len, length};
ghost use Rattle.in_compile.specs.Cells.{count_of, IsEnough};
ghost use Rattle.in_compile.specs.Stocks.{held};
ghost use Rattle.in_rounds.specs.Works.{IsReady, IsWorked};

use crate::done::Done;
use crate::hand::Hand;
use crate::plan::Plan;
use crate::threads::Work;
use in_claims::{Board, Gate, Seat};
use in_compile::{Need, Placed, Stock};

/// Whether a worker continues: its seat is not done, its stock holds enough for any job, and there is room for one more job.
fn goes_on(seat: &Seat, stock: &Stock, rooms: &Vec<Placed>, largest: Need) -> bool
    ensures yes { result ≡ true → (seat.now.done ≡ false) × IsEnough (count_of largest) (held stock.now) × (0 < vec_len rooms.now) }
    ensures ends { result ≡ false → (seat.now.done ≡ true) ⊎ ((IsEnough (count_of largest) (held stock.now) → ⊥) ⊎ (vec_len rooms.now ≡ 0)) }
{
    !seat.is_done() && stock.holds(largest) && !rooms.is_empty()
}

/// Claims jobs while it can, and places each after it has passed the gate. It takes no memory.
pub(crate) fn worked<'t, G: Gate>(
    plan: &Plan<'t>,
    board: &Board,
    gate: &G,
    hand: Hand<'t>,
) -> Hand<'t>
    requires { IsReady plan.now board.now hand }
    ensures { IsWorked plan.now hand.entry result }
{
    let Hand {
        mut seat,
        mut stock,
        mut rooms,
        mut done,
    } = hand;
    let largest = plan.templates.largest_need();
    while goes_on(&seat, &stock, &rooms, largest) {
        let room = rooms.take_last();
        if let Some(job) = board.claim(&mut seat) {
            gate.reached(job);
            let (constructor, destructor) = plan.jobs[job as usize];
            done.push_reserved(Done::make(
                job,
                constructor,
                destructor,
                plan.templates,
                &mut stock,
                room,
            ));
        }
    }
    Hand {
        seat,
        stock,
        rooms,
        done,
    }
}

/// A worker: it claims jobs of a plan from a board, passes the gate, and places them.
#[derive(Drop)]
pub(crate) struct Worker<'a, 't, G> {
    pub(crate) plan: &'a Plan<'t>,
    pub(crate) board: &'a Board,
    pub(crate) gate: &'a G,
}

impl<'a, 't, G: Gate> Work<Hand<'t>> for Worker<'a, 't, G> {
    ghost use Rattle.in_rounds.specs.Works.{IsReady, IsWorked};

    ghost is_ready = { λ w p. IsReady w.plan.now w.board.now p };

    ghost is_worked = { λ w p q. IsWorked w.plan.now p q };

    fn work(&self, hand: Hand<'t>) -> Hand<'t> {
        worked(self.plan, self.board, self.gate, hand)
    }
}
