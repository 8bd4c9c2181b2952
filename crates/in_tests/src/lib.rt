//! Tests of calls that have no text: edges on cycles, cells by leases and by bags, agents copied from one arena to another, and boards with their
//! seats. Each `of_` module is named after the tested crate or part.
#![tactic(auto)]

#[cfg(test)]
mod bags;
#[cfg(test)]
mod callers;
#[cfg(test)]
mod claimers;
#[cfg(test)]
mod copies;
#[cfg(test)]
mod leases;
#[cfg(test)]
mod of_in_arena;
#[cfg(test)]
mod of_in_claims;
#[cfg(test)]
mod of_in_simple_bridges;
#[cfg(test)]
mod of_moving;
#[cfg(test)]
mod words;
