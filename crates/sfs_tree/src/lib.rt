//! The tree of one thread: what each call answers and what it changes.
#![tactic(auto)]

mod counts;
mod file_bytes;
mod nodes;
mod rows;
mod store;
mod tree;

pub use tree::Tree;
pub use tree_laws::{
    Act, Ancestors, Call, Change, Changes, Code, Cursor, Entry, History, NameKind, NameMap,
    NameRow, NameRows, Reply, Turn, TurnAct, Turns,
};
