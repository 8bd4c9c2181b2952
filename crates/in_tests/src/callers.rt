// A caller's knowledge about a board, from the public contracts alone.
ghost use Rattle.std.specs.Prelude.{◌≡◌, ◌<◌, ℕ, Some, IfOk};

use crate::claimers::two_seats;
use in_claims::{Board, laws};
use std::alloc::{AllocError, Global};

// A claim of each of two seats: they claim different numbers.
pub fn a_claim_of_each(alloc: Global, limit: u32) -> Result<(Option<u32>, Option<u32>), AllocError>
    ensures { IfOk result (λ r. (k : ℕ) → r.0 ≡ Some k → r.1 ≡ Some k → ⊥) }
{
    let (board, mut first, mut second) = two_seats(alloc, limit)?;
    let one = board.claim(&mut first);
    let other = board.claim(&mut second);
    let _claims = board.take_back(vec![in alloc; first, second]?);
    laws::two_seats_share_the_numbers();
    Ok((one, other))
}

// The first claim of the only seat of a board that has numbers: it is 0.
pub fn a_first_claim(alloc: Global, limit: u32) -> Result<Option<u32>, AllocError>
    requires { 0 < limit }
    ensures { IfOk result (λ r. r ≡ Some 0) }
{
    let (board, mut seats) = Board::new(alloc, limit, 1)?;
    let Some(mut seat) = seats.pop() else {
        // There is one seat.
        unreachable!()
    };
    let found = board.claim(&mut seat);
    let _claims = board.take_back(vec![in alloc; seat]?);
    Ok(found)
}
