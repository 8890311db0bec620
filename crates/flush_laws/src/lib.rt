//! That the plan of one fsync is a commit from the tree at a cut to the tree at the raised cut.
#![tactic(auto)]

pub mod laws;
