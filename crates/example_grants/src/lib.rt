//! Two cores whose commits take blocks, in numbers.
#![tactic(auto)]

pub mod laws;
