//! Definitions on lists that several crates use, and the facts about them. Its code is two macros, by which a body names what its proof uses.
//!
//! `specs/Lists.antt` has the definitions on lists, `specs/Graphs.antt` graphs whose nodes have ports in classes, and the circles in them:
//! `in_net` says which graph a net is, `in_open_nets` which one an open net is, and neither needs the other. `proofs/` has the facts
//! about these (`Each`, `Among`, `Places`, and `Circuits` for circles). Facts on tests, options and numbers are the standard library's.
//! Definitions on texts, terms, places and refusals are in `in_syntax`, the lowest crate that knows them.
#![tactic(auto)]

/// Says that the invariant of a value is used from here on, by a place in that value. The prover knows the invariant of the target of a `&`
/// only once the body reads it; a body that reads nothing of it before the invariant is needed says so by this word, which does nothing when
/// it runs.
#[macro_export]
macro_rules! use_invariant {
    ($place:expr) => {
        let _ = &$place;
    };
}

/// Makes what an accessor promises available from here on, as a bound on a number of nodes, where its result isn't needed. The prover knows a call's
/// clauses only after the call.
#[macro_export]
macro_rules! use_promise {
    ($call:expr) => {
        let _ = $call;
    };
}
