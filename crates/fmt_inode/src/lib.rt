//! The record of an inode and its indirect blocks, between bytes and values.
#![tactic(auto)]

mod pointer;
mod record;
mod records;
mod tables;

pub use pointer::{LARGEST, PointerPlace, pointer_of};
pub use record::{Inode, decode, encode};
pub use records::Records;
pub use sfs_image::Bad;
pub use tables::{Table, Tables};
