//! What the notes of a core tell of its commit.
#![tactic(auto)]

pub mod laws;
