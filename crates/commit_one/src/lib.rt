//! A whole commit through one slot, with what each crash leaves of it.
#![tactic(auto)]

mod steps;

pub use steps::{Committed, commit};
