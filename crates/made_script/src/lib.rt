//! The script that `load` runs, made from a seed and two counts.
#![tactic(auto)]

pub mod laws;
mod lines;
mod names;
mod phases;

pub use phases::{MOST_ITEMS, MOST_WORKERS, made};
