//! Two cores at one disk, in numbers.
#![tactic(auto)]

pub mod laws;
