//! The journals of all cores at one disk: make, reserve, commit, give back, close.
#![tactic(auto)]

mod beginning;
mod closing;
mod committing;
mod emptying;
mod fault;
mod flying;
pub mod laws;
mod line;
mod making;
mod numbering;
mod own_slots;
mod refusing;
mod reserving;
mod returning;
mod set;
mod waiting;

pub use beginning::Writing;
pub use fault::{Ack, CommitFault};
pub use flying::{Flight, Progress};
pub use making::NewFault;
pub use set::JournalSet;
pub use waiting::Beginning;
