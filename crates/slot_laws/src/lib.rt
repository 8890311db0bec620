//! What cores tell of the journal slots of a disk, and what follows from it.
#![tactic(auto)]

mod label;
pub mod laws;

pub use label::{Label, Seen};
