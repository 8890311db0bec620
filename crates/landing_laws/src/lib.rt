//! That what an fsync planned is what its core made, and what became durable of it.
#![tactic(auto)]

pub mod laws;
