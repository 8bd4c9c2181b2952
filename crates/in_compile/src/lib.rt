//! Templates: the right members of an accepted program's rules and its initial net, in a form in which a machine over raw cells can place
//! them without looking at nets. Also the cells that agents take: a machine must know them before it places a template.
//!
//! A *member* is placed in cells: the right member of a rule, or the initial net, in a form that is placed without looking at nets. `cells` says
//! which cells agents take, and how many a net needs (`Need`). `members` lays a member out: the other ends of its boundary ends, then agent after
//! agent with the other ends of its places, in one list, and the active pairs that it holds. `joints` stores the end of a wire in two words.
//! `Templates` borrows nothing of the program, so that threads can share it.
//!
//! `stock` holds leased cells, by class, over a bag; `placing` writes a member's agents into cells of a stock, end by end, and `placed`
//! has the numbers of these cells, so that placing takes no memory. A value `PlacedTemplate` has a template and its right member in leased
//! cells, so that another thread can get both.
#![tactic(auto)]

mod cells;
mod compiling;
mod joints;
pub mod laws;
mod lists;
mod member;
mod members;
mod placed;
mod placed_template;
mod placing;
mod putting;
mod stock;
mod template;
mod templates;
mod wires;

pub use cells::{Need, is_of, need_of_net};
pub use compiling::compile;
pub use joints::Joint;
pub use member::Member;
pub use placed::Placed;
pub use placed_template::{PlacedTemplate, place};
pub use placing::place_into;
pub use stock::Stock;
pub use template::{OwnOrder, Template};
pub use templates::Templates;
pub use wires::{FIRST_AGENT_SLOT, OverWire, SmallJoint, WithinWire};
