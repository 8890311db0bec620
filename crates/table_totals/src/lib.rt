//! How much the tree of a table has, counted while its cores may make calls.
#![tactic(auto)]

mod counting;
mod parts;
mod resting;

pub use counting::totals;
pub use resting::totals_at_rest;
