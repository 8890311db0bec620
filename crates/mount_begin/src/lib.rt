//! What a mount begins with: the tree of a recovered disk, what the disk has of each node, and what is free on it.
#![tactic(auto)]

mod begin;
mod entries;
mod free;

pub use begin::{Mounted, mount};
