//! Which block of the disk holds each block of an inode, and what a commit makes of them.
#![tactic(auto)]

mod changed;
mod freed;
mod laws;
mod pointers;
mod remapping;
mod rewrite;

pub use changed::{Changed, ChangedBlock};
pub use laws::{freed_blocks_are_left, kept_pointers_stand, remapped_pointers_stand};
pub use pointers::block_at;
pub use remapping::{Remapped, remap};
pub use rewrite::{TABLES, TableFate, blocks_needed};
