ghost use Rattle.std.specs.Prelude.{◌≡◌, All, false, length};

use crate::callers::{a_claim_of_each, a_first_claim};
use crate::claimers::{
    both_made, claim_in_threads, claimers, ends, gets, seats_and_lists, two_seats,
};
use in_claims::{Board, Gate, NoGate, Seat};
use std::alloc::{AllocError, Global};
use std::process::Abort;
use std::test::Fail;
use std::thread::Threads;

#[test]
fn two_seats_take_three_numbers_in_turn(rt: HostRuntime) -> Result<(), Fail> {
    let (board, mut first, mut second) = two_seats(rt.alloc(), 3)?;
    gets(&rt, &board, &mut first, 0);
    gets(&rt, &board, &mut second, 1);
    gets(&rt, &board, &mut first, 2);
    ends(&rt, &board, &mut second);
    ends(&rt, &board, &mut first);
    both_made(&rt, rt.alloc(), &board, (first, second), 5)?;
    Ok(())
}

#[test]
fn seats_that_come_back_after_one_claim(rt: HostRuntime) -> Result<(), Fail> {
    let (board, first, mut second) = two_seats(rt.alloc(), 3)?;
    gets(&rt, &board, &mut second, 0);
    both_made(&rt, rt.alloc(), &board, (second, first), 1)?;
    Ok(())
}

#[test]
fn seats_that_come_back_as_they_were_made(rt: HostRuntime) -> Result<(), Fail> {
    let (board, seats) = Board::new(rt.alloc(), 1000, 64)?;
    assert!(rt; seats.len() == 64);
    assert!(rt; board.take_back(seats) == 0);
    Ok(())
}

#[test]
fn a_board_without_numbers(rt: HostRuntime) -> Result<(), Fail> {
    let (board, mut seat, other) = two_seats(rt.alloc(), 0)?;
    ends(&rt, &board, &mut seat);
    both_made(&rt, rt.alloc(), &board, (other, seat), 1)?;
    Ok(())
}

#[test]
fn claims_that_a_caller_knows(rt: HostRuntime) -> Result<(), Fail> {
    assert!(rt; a_first_claim(rt.alloc(), 5)? == Some(0));
    assert!(rt; a_claim_of_each(rt.alloc(), 5)? == (Some(0), Some(1)));
    assert!(rt; a_claim_of_each(rt.alloc(), 1)? == (Some(0), None));
    Ok(())
}

#[test]
fn the_largest_board(rt: HostRuntime) -> Result<(), Fail> {
    let (board, mut seats) = Board::new(rt.alloc(), 4_294_967_295, 1)?;
    let Some(mut seat) = seats.pop() else {
        // There is one seat.
        unreachable!()
    };
    gets(&rt, &board, &mut seat, 0);
    gets(&rt, &board, &mut seat, 1);
    gets(&rt, &board, &mut seat, 2);
    Ok(())
}

#[test]
fn the_gate_that_stands_open(rt: HostRuntime) {
    NoGate.reached(7);
}

// Notes the numbers of one seat, which rise.
fn note(rt: &impl Abort, numbers: &[u32], times: &mut [u8]) {
    let mut last = None;
    for number in numbers {
        if let Some(before) = last {
            assert!(rt; before < *number);
        }
        last = Some(*number);
        let time = times
            .get_mut(*number as usize)
            .expect(rt, "below the limit");
        *time = time.saturating_add(1);
    }
}

// The number of claims of a board whose seats each claim in a thread until no number is left, and the lists of their numbers. `None` if memory ran
// out.
fn claimed_by_all(
    rt: &(impl Threads + Sync),
    alloc: Global,
    board: &Board,
    seats: Vec<Seat>,
) -> Option<(u64, Vec<Vec<u32>>)>
    requires each { All (λ s. (s.board ≡ board.now) × (s.done ≡ false)) seats.items }
    requires all { length seats.items ≡ board.now.seats }
{
    let all = claimers(alloc, board, seats).ok()?;
    let back = claim_in_threads(rt, alloc, board, all).ok()?;
    let (seats, lists) = seats_and_lists(alloc, board, back)?;
    Some((board.take_back(seats), lists))
}

// Each number below a thousand is in one of these lists.
fn expect_each_once(rt: &impl Abort, alloc: Global, lists: &[Vec<u32>]) -> Result<(), AllocError> {
    let mut times = vec![in alloc; 0u8; 1000]?;
    for list in lists {
        note(rt, list.as_slice(), times.as_mut_slice());
    }
    assert!(rt; times.iter().all(|time| *time == 1));
    Ok(())
}

#[test]
fn eight_threads_take_a_thousand_numbers(rt: HostRuntime) -> Result<(), Fail> {
    let (board, seats) = Board::new(rt.alloc(), 1000, 8)?;
    let (claims, lists) = claimed_by_all(&rt, rt.alloc(), &board, seats).ok_or("memory")?;
    assert!(rt; claims == 1008);
    assert!(rt; lists.len() == 8);
    expect_each_once(&rt, rt.alloc(), lists.as_slice())?;
    Ok(())
}
