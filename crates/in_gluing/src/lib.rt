//! Nets that are glued from parts, joint by joint, and two interactions in either order: laws on nets alone, for crates that join, cut or copy nets
//! in cells, and for the laws on runs above the check.
#![tactic(auto)]

pub mod laws;
