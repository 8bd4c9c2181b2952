//! Laws on the rule of a board, for callers that claim from several threads. `Board::take_back` ensures the premises on hands, for the seats
//! that it takes. No function here does anything.

ghost use Rattle.std.specs.Prelude.{List, slice_index};
ghost use Rattle.atomic_table.specs.Table.{State};
ghost use Rattle.in_claims.specs.Laws.{ClaimCountsAreOne, ClaimsAreApart, ClaimsAreBelowTheLimit, DoneMeansAllClaimed, NewBoardsAreUnclaimed, TwoSeatsShareTheNumbers};
ghost use Rattle.in_claims.specs.Rule.{AreClaims, all_hands};
ghost use Rattle.in_claims.specs.declared.hands.Hand.{Hand};
ghost use Rattle.in_claims.specs.declared.hands.Size.{Size};

use crate::hands;
use atomic_table::TableRule;

/// In each state of a board's table its word and its seats make the claims of the board.
pub fn boards_keep_claims()
    ensures { (size : Size) (s : State (Unit {0}) (List Hand)) → ⟦<hands::Claims as TableRule<(), hands::Hands, hands::Size>>⟧.holds size s → AreClaims size.limit (slice_index s.words 0) (all_hands s.views) }
{}

/// If the seats of a board are as `Board::new` hands them out, no claim was made: the word is 0.
pub fn new_boards_are_unclaimed()
    ensures { NewBoardsAreUnclaimed }
{}

/// No number is claimed twice: not by two seats, nor by one.
pub fn claims_are_apart()
    ensures { ClaimsAreApart }
{}

/// Each claimed number is below the limit, and the word is past it.
pub fn claims_are_below_the_limit()
    ensures { ClaimsAreBelowTheLimit }
{}

/// If a seat is done, the word is past the limit and each number below the limit is claimed.
pub fn done_means_all_claimed()
    ensures { DoneMeansAllClaimed }
{}

/// No number is in the lists of both of two seats of a board. If both are done, each number below the limit is in one of them.
pub fn two_seats_share_the_numbers()
    ensures { TwoSeatsShareTheNumbers }
{}

/// The limit of a board and what its seats claimed have one number of claims, which `Board::take_back` returns. Which seat claims which number is
/// open.
pub fn claim_counts_are_one()
    ensures { ClaimCountsAreOne }
{}
