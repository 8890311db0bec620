//! That a core tells of its pair, by what it made, at the place at which its fsync reserves.
#![tactic(auto)]

pub mod laws;
