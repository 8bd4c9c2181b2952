// The hand of a worker.
use crate::done::Done;
use in_claims::Seat;
use in_compile::{Placed, Stock};

/// A seat, a stock, room for its jobs, and the results.
#[derive(Drop)]
pub(crate) struct Hand<'t> {
    pub(crate) seat: Seat,
    pub(crate) stock: Stock,
    pub(crate) rooms: Vec<Placed>,
    pub(crate) done: Vec<Done<'t>>,
}
