//! One rule for each pair of symbols: Lafont 1990 asks for a rule for each constructor and destructor of one type, and allows at
//! most one rule for two symbols.
//!
//! `table` has a cell for each two symbols. `covering` writes each rule at its two symbols, in both orders, until one is there already;
//! then it goes over the pairs of matching symbols, the later declared one first, and looks for an empty cell.
#![tactic(auto)]

mod covering;
pub mod laws;
mod table;

pub use covering::cover;
pub use table::{RuleNo, RuleTable};
