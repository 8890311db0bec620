//! The nodes that one fsync flushes, from what it has gathered of the logs.
#![tactic(auto)]

mod asked;
mod births;
mod closing;
mod following;
mod gathered;
pub mod laws;
mod lookup;
mod members;
mod orderly;
mod spans;

pub use births::{add_children, named_nodes};
pub use closing::closure;
pub use gathered::{BirthList, CutList, DirectoryChanges, Gathered, LogList, NodeBirth, NodeCut};
pub use members::node_list;
