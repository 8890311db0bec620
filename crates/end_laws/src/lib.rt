//! What a mount of many cores comes to where it ends.
#![tactic(auto)]

pub mod laws;
