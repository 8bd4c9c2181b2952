//! Rounds of several workers on the queue of a machine: they place the right members of the first pairs at once, and the owner does these
//! interactions one after another.
//!
//! Jobs are the first pairs of the queue, by their symbols. `lending` gives each worker its `hand`: a seat at a board (`in_claims`), a stock with
//! its share of the free cells (`sharing`), and room for its results. `working` is the work of a worker, each in its own thread (`threads`): it
//! claims jobs from the board and places their templates. All hands come back by value; `bringing` frees the unused cells and puts the results in a
//! `Gather` (`gathering`).
//!
//! A `Done` is a placed template with its job and the templates that made it, and is always the template of the job's symbols; a `Gather`
//! keeps one for each job of a list. The cells on lease are counted by one number: that of the bags of a list that have a cell (`holders` in
//! `specs/Holding.antt`). Lending, placing, putting, taking and giving back only move cells from one list of bags to another, so sums show that none
//! is lost.
//!
//! Then the owner (`rounding`) goes through the jobs in rising number: a gathered result is settled and stitched in (`stitching`). This is the
//! second half of a step, by the present partners of the pair's ports. At the first job without a result the cells of other results are freed, and
//! the remaining jobs are done by plain steps while their cells are free. So the jobs done are the first ones, on any schedule. `rounds` is the call
//! over machines.
#![tactic(auto)]

mod bringing;
mod done;
mod gather;
mod gathering;
mod hand;
pub mod laws;
mod lending;
mod plan;
mod rounding;
mod rounds;
mod sharing;
mod stitching;
mod threads;
mod working;

pub use done::Done;
pub use gather::{Gather, Why};
pub use gathering::gather_jobs;
pub use in_arena::{CellClass, CellNo, End};
pub use in_claims::{Board, Gate, NoGate, Seat};
pub use in_compile::{Need, Placed, Stock, place};
pub use in_machine::{LEAST_CELLS, MOST_CELLS, Machine, StartFault};
pub use plan::Plan;
pub use rounding::Round;
pub use rounds::round;
