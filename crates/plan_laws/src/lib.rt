//! That the plan which an fsync makes of what it has gathered leads from the tree at the cut to the tree at the raised cut.
#![tactic(auto)]

pub mod laws;
