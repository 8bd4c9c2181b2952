//! The parts of a diagnosis: excerpts of the text, near names, and sentences on a text, its names, its rules and its wires. Nothing here
//! builds a net.
//!
//! They need only the text and its tree, so that they are proved beside the passes. `refusals` picks the sentences on a code, which are in the file
//! of its kind: `letters` (characters, with their names from `in_diagnosis_characters::name_of`), `grammar` (expected tokens; limits), `names`,
//! `closed_wires`, `pairs`.
//!
//! `declarations` and `occurrences` look into the tree; `occurrences` finds a name's places in a rule or in the net. `single` finds the
//! variables that occur once, `near` the names that may have been meant (`strsim`). `ends` has the two ends of a wire that don't fit,
//! `nodes` the nodes of a circle, and `braces` declarations with other braces, in words, and the texts with them. Only `before` reads tokens
//! again: those before a refusal by the grammar, when there is no tree.
//!
//! `sentences` has each sentence whole, with named slots; `words` writes a sentence with the values of its slots (`slots`). `reports` keeps the
//! parts of a diagnosis, and the changes of the text that they suggest (`edits`). It writes them as a text with `excerpts`, lines of the text with
//! marks under them, or as members of a JSON object with `data`. A `Report` keeps that memory ran out, and `into_text` and `into_data` return it.
#![tactic(auto)]

mod before;
mod braces;
mod closed_wires;
mod data;
mod declarations;
mod edits;
mod ends;
mod excerpts;
mod grammar;
mod letters;
mod names;
mod near;
mod nodes;
mod occurrences;
mod pairs;
mod refusals;
mod reports;
mod sentences;
mod single;
mod slots;
mod words;

pub use braces::{
    Braces, Change, Changed, changed_braces, declaration_with, has_usual_braces, place_at,
};
pub use declarations::port;
pub use edits::Edit;
pub use ends::{Giving, ToldEnd, agent_end, free_end, head_end, say_ends};
pub use grammar::{add_larger, add_more_than};
pub use nodes::{add_braces, port_of, say_node_at};
pub use occurrences::rule_at;
pub use refusals::{add_text_fault, add_tree_fault};
pub use reports::{Kind, Report};
pub use slots::{Slot, Value};
pub use words::Words;
