//! What the disk has of nodes that have an inode.
#![tactic(auto)]

mod bucket;
mod index;
mod names;
mod old;
mod rooms;
mod slots;

pub use old::{OldDisk, OldEntry, OldNode, take_old};
pub use slots::{DirectorySlots, SlotsRoom};
