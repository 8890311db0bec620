//! What a commit writes: from net changes to the records and blocks of a transaction.
#![tactic(auto)]

mod after;
mod all_built;
mod begun;
mod block;
mod change;
mod directory;
mod directory_net;
mod enter;
mod files;
mod fresh;
mod given_up;
mod kinds;
mod laws;
mod links;
mod net_list;
mod node_built;
mod numbers;
mod pages;
mod patch;
mod placed;
mod plans;
mod records;
mod rewritten;
mod seat;
mod transaction;

pub use after::NodeChanges;
pub use change::{DiskChange, need};
pub use directory_net::DirectoryNet;
pub use enter::{Enter, EnterList};
pub use files::{FileChange, FileChangeList};
pub use given_up::held_blocks;
pub use laws::only_what_differs_is_written;
pub use net_list::NetList;
pub use pages::{Page, PageList};
pub use transaction::{Built, build};
