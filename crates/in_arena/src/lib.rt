//! The cells of a net in raw memory: an arena has cells of a few widths, each free, leased or live with a symbol and its ends.
//!
//! It uses `in_memory`, whose rows of cells have several owners. All cells are in one row of words. Its first words are four for each cell of any
//! class: three places and a head, which names the symbol and the number of ends. So the word of an end that is one of these places is
//! the place's own number in the row, and an end is written by one test and one store. The further places of large and of wide cells come after.
//!
//! From below: `content`, the classes of cells and ends; `word`, an end in one word; `head`, a cell's head in one, and a cell to be begun; `free_list`, the free cells of each class; `spot`, where the
//! words of a cell are; `row`, the words of a row, cell by cell; `lease`, the owner of one cell; `bag`, the owner of several cells by their numbers,
//! which takes no bytes for a cell; `arena`.
//!
//! An arena is made without being written. The free cells are those given back, in a list through their heads with the last one first, and
//! then all that were never used. A retired cell comes first, so that a lease and the write after it touch one line of the cache.
#![tactic(auto)]

mod arena;
mod bag;
mod content;
mod free_list;
mod head;
pub mod laws;
mod lease;
mod row;
mod spot;
mod word;

pub use arena::{Arena, RowStart};
pub use bag::Bag;
pub use content::{CellClass, CellCounts, CellIndex, CellNo, End, SymbolWord};
pub use head::{HeadWord, NewCell};
pub use lease::Lease;
pub use word::{EndWord, PlaceStep};
