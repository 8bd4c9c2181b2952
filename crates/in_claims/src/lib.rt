//! Numbers claimed in parallel: from any threads, the seats of a board claim the numbers below a limit, each once.
//!
//! It needs only the kit's `atomic_table`. One word of an atomic table counts up. `hands` defines the meaning of the word (the plays
//! `Drew` and `Told`, how seats are taken together, `Together`, and the rule `Claims` over the hands), and `board` is the only caller of
//! the table. A test can hold a thread at a `Gate`: a worker calls `reached` after each claim.
#![tactic(auto)]

mod board;
mod gate;
mod hands;
pub mod laws;

pub use board::{Board, Seat};
pub use gate::{Gate, NoGate};
