//! The words of the one-thread tree: calls and replies, what a call changes, histories, and the laws of all of these.
#![tactic(auto)]

mod call;
mod changes;
mod history;
pub mod laws;
mod listing;
mod merge;
mod name_map;
mod reply;
mod turns;

pub use call::Call;
pub use changes::{Act, Ancestors, Change, Changes};
pub use history::{Cursor, Entry, History};
pub use listing::{NameKind, NameRows};
pub use name_map::{NameMap, NameRow};
pub use reply::{Code, Reply};
pub use turns::{Turn, TurnAct, Turns};
