//! Lists whose items ascend by a number of theirs.
#![tactic(auto)]

mod keyed;
mod list;

pub use keyed::{Keyed, Numbered};
pub use list::KeyedList;
