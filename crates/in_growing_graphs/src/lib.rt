//! Graphs that grow edge by edge, and their blobs: vertices that are joined by edges on cycles. A forest keeps the edges between blobs.
#![tactic(auto)]

pub mod laws;
