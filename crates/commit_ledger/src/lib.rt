//! What the box with the disk keeps of commits: free space, numbers, and the last commit of each node.
#![tactic(auto)]

mod beginning;
mod ending;
mod last;
pub mod laws;
mod ledger;
mod open_commit;

pub use beginning::Prepared;
pub use ledger::Ledger;
