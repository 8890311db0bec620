//! What the turns at the disk say of the fsyncs of a history.
#![tactic(auto)]

pub mod laws;
