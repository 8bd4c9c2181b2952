// Boards and seats for tests.
ghost use Rattle.std.specs.Prelude.{◌≡◌, ◌+◌, [], false, IfOk, IfSome, All, length};

use in_claims::{Board, Seat};
use std::alloc::{AllocError, Global};
use std::process::Abort;
use std::thread;
use std::thread::Threads;

// A board with two seats.
pub fn two_seats(alloc: Global, limit: u32) -> Result<(Board, Seat, Seat), AllocError>
    ensures seats { IfOk result (λ r. (r.0.seats ≡ 2) × (r.1.board ≡ r.0) × (r.1.done ≡ false) × (r.2.board ≡ r.0) × (r.2.done ≡ false)) }
    ensures claims { IfOk result (λ r. (r.1.numbers ≡ []) × (r.2.numbers ≡ [])) }
{
    let (board, mut seats) = Board::new(alloc, limit, 2)?;
    let second = seats.pop();
    let first = seats.pop();
    match (first, second) {
        (Some(first), Some(second)) => Ok((board, first, second)),
        // There are two seats.
        _ => unreachable!(),
    }
}

// The next claim is this number.
pub fn gets(rt: &impl Abort, board: &Board, seat: &mut Seat, number: u32)
    requires { (seat.old.board ≡ board.now) × (seat.old.done ≡ false) }
    ensures { (seat.new.board ≡ board.now) × (seat.new.done ≡ false) }
{
    assert!(rt; board.claim(seat) == Some(number));
    assert!(rt; !seat.is_done());
}

// The next claim finds no number, and the seat is done.
pub fn ends(rt: &impl Abort, board: &Board, seat: &mut Seat)
    requires { (seat.old.board ≡ board.now) × (seat.old.done ≡ false) }
    ensures { seat.new.board ≡ board.now }
{
    assert!(rt; board.claim(seat).is_none());
    assert!(rt; seat.is_done());
}

// A seat with its board, for a thread.
#[derive(Drop)]
pub struct Claimer<'a> {
    board: &'a Board,
    seat: Seat,
    ghost of_board: { seat.board ≡ board.now },
    ghost not_done: { seat.done ≡ false },
}

// The result of a thread: its seat, and the numbers that it claimed, or `None` if memory ran out.
#[derive(Drop)]
pub struct Returned {
    pub seat: Seat,
    pub numbers: Option<Vec<u32>>,
}

// Both seats of a board are taken back, and `claims` claims are returned.
pub fn both_made(
    rt: &impl Abort,
    alloc: Global,
    board: &Board,
    seats: (Seat, Seat),
    claims: u64,
) -> Result<(), AllocError>
    requires all { board.now.seats ≡ 2 }
    requires of_this_board { (seats.0.board ≡ board.now) × (seats.1.board ≡ board.now) }
{
    let (first, second) = seats;
    let all = vec![in alloc; first, second]?;
    assert!(rt; board.take_back(all) == claims);
    Ok(())
}

// All seats, each with its board.
pub fn claimers<'a>(
    alloc: Global,
    board: &'a Board,
    mut seats: Vec<Seat>,
) -> Result<Vec<Claimer<'a>>, AllocError>
    requires { All (λ s. (s.board ≡ board.now) × (s.done ≡ false)) seats.items }
    ensures each { IfOk result (λ all. All (λ c. c.board.now ≡ board.now) all.items) }
    ensures count { IfOk result (λ all. length all.items ≡ length seats.items) }
{
    let mut all = Vec::new(alloc);
    while let Some(seat) = seats.pop() {
        all.push(Claimer { board, seat })?;
    }
    Ok(all)
}

// Each claims in its own thread.
pub fn claim_in_threads(
    rt: &(impl Threads + Sync),
    alloc: Global,
    board: &Board,
    all: Vec<Claimer<'_>>,
) -> Result<Vec<Returned>, AllocError>
    requires { All (λ c. c.board.now ≡ board.now) all.items }
    ensures each { IfOk result (λ back. All (λ r. r.seat.board ≡ board.now) back.items) }
    ensures count { IfOk result (λ back. length back.items ≡ length all.entry.items) }
{
    thread::map_vec(rt, all, &|claimer: Claimer<'_>| claimer.claim_all(alloc))
}

// The seats that came back, and the lists of their numbers. `None` if memory ran out.
pub fn seats_and_lists(
    alloc: Global,
    board: &Board,
    mut back: Vec<Returned>,
) -> Option<(Vec<Seat>, Vec<Vec<u32>>)>
    requires { All (λ r. r.seat.board ≡ board.now) back.items }
    ensures each { IfSome result (λ r. All (λ s. s.board ≡ board.now) r.0.items) }
    ensures count { IfSome result (λ r. length r.0.items ≡ length back.items) }
{
    let mut seats = Vec::new(alloc);
    let mut lists = Vec::new(alloc);
    while let Some(returned) = back.pop() {
        let Returned { seat, numbers } = returned;
        seats.push(seat).ok()?;
        lists.push(numbers?).ok()?;
    }
    Some((seats, lists))
}

fn with_number(numbers: Option<Vec<u32>>, number: u32) -> Option<Vec<u32>> {
    let mut numbers = numbers?;
    numbers.push(number).ok()?;
    Some(numbers)
}

impl<'a> Claimer<'a> {
    // Claims until no number is left, and gives the other threads a turn after each number.
    pub fn claim_all(self, alloc: Global) -> Returned
        ensures { result.seat.board ≡ self.entry.board.now }
    {
        let Claimer { board, mut seat } = self;
        let mut numbers = Some(Vec::new(alloc));
        for _turn in 0..u64::MAX {
            let Some(number) = board.claim(&mut seat) else {
                break;
            };
            numbers = with_number(numbers, number);
            thread::yield_now();
        }
        Returned { seat, numbers }
    }
}
