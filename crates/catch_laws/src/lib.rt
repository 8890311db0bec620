//! What an fsync caught on the shared table is what a core makes its commit of.
#![tactic(auto)]

pub mod laws;
