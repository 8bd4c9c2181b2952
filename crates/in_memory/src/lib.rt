//! Rows of cells in raw memory. Several owners may each have some cells of a row.
//!
//! It needs `std_alloc` and `core`, and has the only `unsafe` code of the tower. A row is one block of memory for values of one type. `Base` is
//! its beginning; `Cells` owns any set of its cells, which only proofs know and which takes no space; `Deed` is the right to free the
//! block. So a row is parted among owners, and joined again, without a copy, a test or a list of the cells of each; a read is one load and a
//! write one store; and owners may be moved to other threads.
#![tactic(auto)]

mod cells;
pub mod laws;

pub use cells::{Base, Cells, Deed, allocate, deallocate};
