//! How much a tree has: its rows, and the bytes of its live files.
#![tactic(auto)]

mod counted;

pub use counted::{TreeTotals, totals};
