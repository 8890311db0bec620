//! What commits know of a history while others become durable beside them.
#![tactic(auto)]

pub mod laws;
