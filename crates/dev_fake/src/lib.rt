//! Disks in memory that fail by plan: from some device call on, or at the calls of a list.
#![tactic(auto)]

mod fail_at;
mod fuse;

pub use fail_at::FailAt;
pub use fuse::Fuse;
