// A board, and the seats that claim from it.
ghost use Rattle.std.specs.Prelude.{◌≡◌, ◌<◌, ◌≤◌, false, IfOk, replicate, length, map, All};
ghost use Rattle.std.specs.List.Sorted.{IsStrictlyIncreasing};
ghost use Rattle.in_claims.specs.Rule.{AreClaims};
ghost use Rattle.in_claims.specs.Seats.{fresh, hand_of, Claims as ClaimGives};

use crate::hands::{Claims, Drew, Hands, OneMore, Size, Together, Told};
use atomic_table::Table;
use std::alloc::{AllocError, Global};
use std::marker::Model;

/// Hands out the numbers below a limit, each once, to the seat that asks first. Contracts see the identity of its table, its limit, and the number
/// of its seats. Boards are this project's own choice: Lafont 1990 shows that interactions at different pairs can be done in either
/// order, and says nothing of the workers that do them.
#[derive(Drop)]
pub struct Board {
    table: Table<(), Hands, Size, Claims, Global>,
    size: Size,
}

impl Model for Board {
    ghost use Rattle.in_claims.specs.Seats.{BoardView};

    ghost Value = { BoardView };

    ghost use Rattle.in_claims.specs.Sitting.{board_view, IsBoard};

    ghost view = { board_view };

    ghost invariant = { IsBoard };
}

/// Claims from one board, in one thread at a time. Contracts see its board, the numbers that it claimed, and whether it is done.
#[derive(Drop)]
pub struct Seat {
    inner: atomic_table::Seat<(), Hands>,
    done: bool,
}

impl Model for Seat {
    ghost use Rattle.in_claims.specs.Seats.{SeatView};

    ghost Value = { SeatView };

    ghost use Rattle.in_claims.specs.Sitting.{seat_view, IsSitting};

    ghost view = { seat_view };

    ghost invariant = { IsSitting };
}

impl Board {
    /// A board of the numbers below `limit`, none of which is claimed yet, and all its seats, 1 to 64. It gets no others. Refused only when out of
    /// memory.
    pub fn new(alloc: Global, limit: u32, seats: u32) -> Result<(Board, Vec<Seat>), AllocError>
        requires some { 0 < seats }
        requires most { seats ≤ 64 }
        ensures limit { IfOk result (λ r. r.0.limit ≡ limit) }
        ensures all { IfOk result (λ r. r.0.seats ≡ seats) }
        ensures seats { IfOk result (λ r. r.1.items ≡ replicate seats (fresh r.0)) }
    {
        let size = Size { limit, seats };
        let (table, mut first) = Table::of_words(alloc, &[0], &size)?;
        let mut all = Vec::new(alloc);
        for _made in 1..seats {
            let inner = table.shared.split_seat::<OneMore>(&mut first);
            all.push(Seat { inner, done: false })?;
        }
        all.push(Seat {
            inner: first,
            done: false,
        })?;
        Ok((Board { table, size }, all))
    }

    /// The next number, which the seat has then claimed. If all numbers are claimed, returns `None`, and the seat is then done. It waits
    /// for nobody and takes no memory.
    pub fn claim(&self, seat: &mut Seat) -> Option<u32>
        requires of_this_board { seat.old.board ≡ self.now }
        requires not_done { seat.old.done ≡ false }
        ensures claims { ClaimGives seat.old result seat.new }
        ensures rises { IsStrictlyIncreasing seat.new.numbers }
    {
        let limit = u64::from(self.size.limit);
        let found = self.table.shared.fetch_add::<Drew>(&mut seat.inner, 0, 1);
        if found < limit {
            Some(found as u32)
        } else {
            seat.done = true;
            None
        }
    }

    /// Takes all seats of this board back, and returns the number of claims, also of those that found no number. The seats' numbers together
    /// are the claims of the board: each number below that count and below the limit once, and no other. As many seats are done as the count is
    /// past the limit. It refuses nothing, waits for nobody and takes no memory.
    pub fn take_back(&self, seats: Vec<Seat>) -> u64
        requires of_this_board { All (λ s. s.board ≡ self.now) seats.items }
        requires all { length seats.items ≡ self.now.seats }
        ensures { AreClaims self.now.limit result (map hand_of seats.items) }
    {
        let shared = &self.table.shared;
        let mut rest = seats;
        let Some(last) = rest.pop() else {
            // All seats are given back, and a board has at least one.
            unreachable!()
        };
        let Seat {
            inner: mut all,
            done: _,
        } = last;
        while let Some(seat) = rest.pop() {
            let Seat { inner, done: _ } = seat;
            shared.join_seat::<Together>(&mut all, inner);
        }
        shared.load::<Told>(&mut all, 0)
    }
}

impl Seat {
    /// Whether a claim of this seat has found all numbers claimed.
    pub fn is_done(&self) -> bool
        ensures { result ≡ self.now.done }
    {
        self.done
    }
}
