//! What commits bring to a disk while others become durable, and how the books of many cores' turns are kept.
#![tactic(auto)]

pub mod laws;
