//! What an fsync flushes: cuts of a history, their rules, and what is proved of them.
#![tactic(auto)]

mod event;
pub mod laws;

pub use event::{CommitList, Event, Refused};
