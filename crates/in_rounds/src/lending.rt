// The hands of the workers before a round begins.
ghost use Rattle.std.specs.Prelude.{◌≡◌, ◌≤◌, ◌<◌, ◌++◌, ◌+◌, [], replicate, length, All, IfOk, vec_len, vec_capacity};
ghost use Rattle.in_arena.specs.Arenas.{NoneLeased, free_of};
ghost use Rattle.in_claims.specs.Seats.{fresh};
ghost use Rattle.in_compile.specs.Stocks.{empty_stock};
ghost use Rattle.in_rounds.specs.Bringing.{in_hands};
ghost use Rattle.in_rounds.specs.Lending.{AreLentOut, IsFreshHand, IsShare};
ghost use Rattle.in_rounds.specs.Works.{IsEmptyRoom, IsReady};

use crate::hand::Hand;
use crate::plan::Plan;
use in_arena::Arena;
use in_base::use_promise;
use in_claims::{Board, Seat};
use in_compile::{Need, Placed, Stock};
use std::alloc::{AllocError, Global};

/// Rooms for `count` templates, each as large as the one with the most agents needs.
fn rooms_for(
    alloc: Global,
    plan: &Plan,
    arena: &Arena,
    stock: &Stock,
    count: u32,
) -> Result<Vec<Placed>, AllocError>
    requires { (stock.now.bag.memory ≡ arena.now.memory) × (stock.now.bag.cells ≡ arena.now.cells) }
    ensures each { IfOk result (λ v. All (IsEmptyRoom plan.now.templates.templates stock.now) v.items) }
    ensures count { IfOk result (λ v. vec_len v ≡ count) }
{
    let mut rooms = Vec::with_capacity(alloc, count as usize)?;
    let agents = plan.templates.most_agents();
    for _made in 0..count {
        rooms.push_reserved(Placed::empty(alloc, arena, agents)?);
    }
    Ok(rooms)
}

/// A worker with this seat, room for its jobs, and a stock without cells that has room for its share of them.
fn hand<'t>(
    alloc: Global,
    plan: &Plan<'t>,
    board: &Board,
    arena: &Arena,
    seat: Seat,
    share: Need,
    rooms: u32,
) -> Result<Hand<'t>, AllocError>
    requires seat { seat ≡ fresh board.now }
    requires limit { board.now.limit ≤ length plan.now.jobs }
    ensures { IfOk result (IsFreshHand plan.now board.now arena.now share) }
{
    let stock = Stock::empty(alloc, arena, share)?;
    let done = Vec::with_capacity(alloc, rooms as usize)?;
    let rooms = rooms_for(alloc, plan, arena, &stock, rooms)?;
    Ok(Hand {
        seat,
        stock,
        rooms,
        done,
    })
}

/// A worker for each seat.
fn hands<'t>(
    alloc: Global,
    plan: &Plan<'t>,
    board: &Board,
    arena: &Arena,
    seats: Vec<Seat>,
    share: Need,
    rooms: u32,
) -> Result<Vec<Hand<'t>>, AllocError>
    requires seats { All (λ s. s ≡ fresh board.now) seats.items }
    requires limit { board.now.limit ≤ length plan.now.jobs }
    ensures each { IfOk result (λ v. All (IsFreshHand plan.now board.now arena.now share) v.items) }
    ensures count { IfOk result (λ v. vec_len v ≡ vec_len seats) }
{
    let mut hands = Vec::with_capacity(alloc, seats.len())?;
    let mut seats = seats;
    while let Some(seat) = seats.pop() {
        hands.push_reserved(hand(alloc, plan, board, arena, seat, share, rooms)?);
    }
    Ok(hands)
}

/// The memory taken before the first cell is lent: a hand without cells for each worker, and lists with room for all hands, lent and back.
#[derive(Drop)]
pub(crate) struct Crew<'t> {
    pub(crate) hands: Vec<Hand<'t>>,
    pub(crate) lent: Vec<Hand<'t>>,
    pub(crate) back: Vec<Hand<'t>>,
}

/// A crew of a worker for each seat.
pub(crate) fn crew_of<'t>(
    alloc: Global,
    plan: &Plan<'t>,
    board: &Board,
    arena: &Arena,
    seats: Vec<Seat>,
    share: Need,
    rooms: u32,
) -> Result<Crew<'t>, AllocError>
    requires seats { All (λ s. s ≡ fresh board.now) seats.items }
    requires limit { board.now.limit ≤ length plan.now.jobs }
    ensures hands { IfOk result (λ w. All (IsFreshHand plan.now board.now arena.now share) w.hands.items) }
    ensures count { IfOk result (λ w. vec_len w.hands ≡ vec_len seats) }
    ensures lent { IfOk result (λ w. (w.lent.items ≡ []) × (vec_len seats ≤ vec_capacity w.lent)) }
    ensures back { IfOk result (λ w. (w.back.items ≡ []) × (vec_len seats ≤ vec_capacity w.back)) }
{
    let many = seats.len();
    let lent = Vec::with_capacity(alloc, many)?;
    let back = Vec::with_capacity(alloc, many)?;
    let hands = hands(alloc, plan, board, arena, seats, share, rooms)?;
    Ok(Crew { hands, lent, back })
}

/// Gives each worker its share of the cells. The list for them is empty and has room for all, so no memory is taken.
pub(crate) fn lend<'t>(
    mut hands: Vec<Hand<'t>>,
    mut lent: Vec<Hand<'t>>,
    plan: &Plan<'t>,
    board: &Board,
    share: Need,
    arena: &mut Arena,
) -> Vec<Hand<'t>>
    requires none { NoneLeased arena.old }
    requires hands { All (IsFreshHand plan.now board.now arena.old share) hands.items }
    requires share { IsShare (vec_len hands) share (free_of arena.old) }
    requires room { (lent.items ≡ []) × (vec_len hands ≤ vec_capacity lent) }
    ensures lent { AreLentOut (in_hands result.items) arena.old arena.new }
    ensures ready { All (IsReady plan.now board.now) result.items }
    ensures none_done { All (λ p. p.done.items ≡ []) result.items }
    ensures count { vec_len result ≡ vec_len hands.entry }
{
    use_promise!(arena.cells());
    while let Some(mut hand) = hands.pop() {
        hand.stock.add(arena, share);
        lent.push_reserved(hand);
    }
    lent
}
