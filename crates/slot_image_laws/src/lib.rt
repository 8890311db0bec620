//! What the images of a disk with journal slots show.
#![tactic(auto)]

pub mod laws;
