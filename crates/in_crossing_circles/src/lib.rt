//! Crossing circles: an open net is derivable exactly when no circle of its wires enters and leaves each of its nodes by different classes.
#![tactic(auto)]

pub mod laws;
