//! What an fsync on the shared table catches: it holds what was flushed of exactly the nodes that it concerns by the logs of all cores.
#![tactic(auto)]

mod alone;
mod catching;
mod looking;

pub use alone::catch_alone;
pub use catching::{catch_nodes, one_node};
pub use looking::{Caught, WaitingFsync};
