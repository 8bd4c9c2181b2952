// The values in the table of a board for its seats, and its steps.

use atomic_table::{Join, Play, Split, TableRule};
use std::collections::LinkedList;

// The size of a board: the limit below which its seats claim, and the number of its seats.
#[derive(Clone, Copy)]
pub struct Size {
    pub limit: u32,
    pub seats: u32,
}

// The knowledge of a seat: the size of its board, the numbers that it claimed, and whether it is done. It has some of the board's shares, one for
// each of its seats; a seat of a caller has one share. No value of it is made.
pub struct Hand {
    shares: u64,
    size: Size,
    numbers: LinkedList<u32>,
    done: bool,
}

// The table's value for a seat: its hand alone, or the hands of all seats that were taken together, the first one first.
pub type Hands = LinkedList<Hand>;

// The rule of the table of a board.
pub struct Claims;

impl TableRule<(), Hands, Size> for Claims {
    ghost use Rattle.std.specs.Prelude.{false, [], ◌∷◌};
    ghost use Rattle.in_claims.specs.Rule.{IsBoardRule, hand};

    ghost holds = { IsBoardRule };

    ghost first = { λ size. hand size.seats size [] false ∷ [] };
}

// A seat gives one of its shares to a new seat, which has claimed nothing.
pub struct OneMore;

impl Split<Hands> for OneMore {
    ghost use Rattle.std.specs.Prelude.{◌-◌, [], false, map};
    ghost use Rattle.in_claims.specs.Rule.{hand};

    ghost left = { λ hands. map (λ h. hand (h.shares - 1) h.size h.numbers h.done) hands };

    ghost right = { λ hands. map (λ h. hand 1 h.size [] false) hands };
}

// A seat drew the number that it found, or is done.
pub struct Drew;

impl Play<(), Hands> for Drew {
    ghost use Rattle.std.specs.Prelude.{◌≡◌, map, All};
    ghost use Rattle.std.specs.List.Sorted.{IsStrictlyIncreasing};
    ghost use Rattle.in_claims.specs.Rule.{drew};

    ghost then = { λ _ me found after. (after ≡ (map (λ h. drew h found) me.0, me.1)) × All (λ h. IsStrictlyIncreasing h.numbers) after.0 };
}

// A seat takes in another, whose hands go before its own.
pub struct Together;

impl Join<Hands> for Together {
    ghost use Rattle.std.specs.Prelude.{[], ◌++◌};

    ghost both = { λ ours theirs. theirs ++ ours };

    ghost spent = { [] };
}

// The hands of all seats are the claims of the board.
pub struct Told;

impl Play<(), Hands> for Told {
    ghost use Rattle.in_claims.specs.Rule.{AreClaims, limit_of};

    ghost then = { λ _ me found _. AreClaims (limit_of me.0) found me.0 };
}
