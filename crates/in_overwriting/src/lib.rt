//! Interactions in place, by overwriting. Laws on the definitions alone, for code that does an interaction by two stores for each wire of the right
//! member; and `marking`, which says which symbols are marked, the one call that does anything.
//!
//! If no wire of the net joins two auxiliary ports of the active pair, the net after an interaction has the partners of the net before,
//! overwritten at both sides of each wire of the right member; a boundary end's side is its port's old partner (`Overwriting` of `specs/`).
//! The active pair that a wire over boundary ends makes is seen at its two sides, so the new pairs come in order if the wires are taken by their
//! lowest ends (`MadeByWires`). If a wire leads back to the pair, the laws of `in_gluing` on boundary ends joined one after another hold instead.
//! Unless a symbol of the pair has a class with two ports of one type and opposite signs, no wire leads back in a typed net without crossing circle
//! (`Flag`).
#![tactic(auto)]

pub mod laws;
mod marking;

pub use marking::is_marked;
