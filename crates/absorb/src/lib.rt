//! What the changes of one directory come to.
#![tactic(auto)]

mod last;
pub mod laws;
mod nets;

pub use nets::{Net, NetRow, net_of};
