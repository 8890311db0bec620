//! What one fsync changes of the tree at a cut.
#![tactic(auto)]

pub mod laws;
