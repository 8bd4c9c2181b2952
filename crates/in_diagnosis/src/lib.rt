//! Why a program is refused, in words for people: the place of the fault, its name in the field, and help. The line on standard
//! output names the fault; nothing here changes it.
//!
//! `telling` begins with what a check found of the text (`in_check::Findings`), or checks it: `parse_expecting`, which is `parse` and keeps the tokens
//! that the grammar expects at the refusal, and `in_check::refusal_of` on the tree together do the same as `check`. Both also give the evidence of
//! the refusal (`Evidence`): the two ends of a wire whose types don't fit, or the open net that no steps build, with the part that is stuck; so no
//! table, net or rule is built for the diagnosis alone.
//!
//! `wires` describes the ends of a wire. `directed` finds a circle of agents, each of which has an output that the next one takes. If there is none,
//! `circles` finds a circle through a part that no node splits. `stuck` describes it, and `remedies` tries declarations with other braces (`braces`
//! of `in_diagnosis_words` writes them): each alone, and then the usual ones of all symbols.
//!
//! A `Report` gets all of this, and becomes a text or data; `heads` writes the refusal before the data. `laws` has the law on data.
#![tactic(auto)]

mod circles;
mod directed;
mod heads;
pub mod laws;
mod remedies;
mod sentences;
mod stuck;
mod telling;
mod wires;

pub use heads::code_number;
pub use telling::{diagnosis, diagnosis_data, diagnosis_of};
