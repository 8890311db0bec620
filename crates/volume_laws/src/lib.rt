//! What a mounted volume keeps from call to call, on the disk's side.
#![tactic(auto)]

pub mod laws;
