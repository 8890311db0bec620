//! What an fsync does, said over the part of a history that it has gathered.
#![tactic(auto)]

pub mod laws;
