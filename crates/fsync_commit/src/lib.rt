//! An fsync's plan is committed at the journals of all cores: what it needs is reserved, its transaction is built and committed, or all is handed back.
#![tactic(auto)]

mod building;
mod committing;
mod granted;
mod landing;
pub mod laws;

pub use committing::commit_plan;
pub use landing::{CommitRefusal, Landed};
