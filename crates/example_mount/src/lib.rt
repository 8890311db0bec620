//! A mount of two cores as it ends, in numbers.
#![tactic(auto)]

pub mod laws;
