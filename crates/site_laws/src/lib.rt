//! What a mount gives is a site of a shared table and of journals.
#![tactic(auto)]

pub mod laws;
