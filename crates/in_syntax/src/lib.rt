//! The text of a program: its tokens, its tree, and the first fault in either.
//!
//! `characters` and `lexer` go over the text one character at a time. `parser` takes one token at a time into `reader`, a machine whose `states` say
//! where in a program the next token is, with a `stack` for the terms that are open: no call is deeper for a deeper text. `specs/Steps.antt` has the
//! machine's steps as definitions; the proofs show that it reads exactly what the grammar spells. `words` are the kinds of tokens, and `signs`
//! tokens as the grammar sees them; `machine` says which state comes after one, and has the limits (`counts` has the numbers of declarations so
//! far); `expecting` says which tokens could be in the place of one.
//!
//! `text`, `places` and `tree` are the results: bytes, places in a text, the tree. `faults` are refusals and their places. `streams` and
//! `memory` are readers and writers.
//!
//! `walks` goes down terms, one call deeper for each term within a term, and calls a `Visitor` at each name, each argument and each equation; `uses`
//! is one that lists the places of the names of a rule or of the net. `in_symbols` and `in_net` have others.
#![tactic(auto)]

mod characters;
mod counts;
mod expecting;
mod faults;
pub mod laws;
mod lexer;
mod lists;
mod machine;
mod memory;
mod parser;
mod parsing;
mod places;
mod reader;
mod signs;
mod stack;
mod states;
mod streams;
mod symbol_no;
mod text;
mod text_limits;
mod tree;
mod uses;
mod walks;
mod words;

pub use expecting::{Expected, PartOf};
pub use faults::{Code, Fault, Refusal};
pub use lexer::{MAX_NAME_CHARACTERS, tokens};
pub use lists::with_room;
pub use machine::{MAX_DEPTH, MAX_PORTS, MAX_TYPES};
pub use memory::{MemoryIn, MemoryOut};
pub use parsing::{parse, parse_expecting};
pub use places::Place;
pub use streams::{TextIn, TextOut};
pub use symbol_no::SymbolNo;
pub use text::Text;
pub use text_limits::{MOST_MEMBER_AGENTS, TextLimits};
pub use tree::{
    Equation, Equations, Head, Name, Source, SourceClass, SourceClasses, SourceFree, SourceFrees,
    SourceNet, SourcePort, SourceRule, SourceRules, SourceSymbol, SourceSymbols, Term, Terms,
    TypeNames,
};
pub use uses::{NameUse, names_of_body, names_of_rule};
pub use walks::{Visitor, walk_equations, walk_term, walk_terms};
pub use words::{Token, TokenKind};
