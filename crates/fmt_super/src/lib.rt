//! The superblock between bytes and a layout, and where the parts of a disk lie.
#![tactic(auto)]

mod block;
mod layout;

pub use block::{decode, encode};
pub use layout::Layout;
pub use sfs_image::{Bad, MOST_SLOTS};
