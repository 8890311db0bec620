//! What the turns of a run say of the fsyncs of a volume.
#![tactic(auto)]

pub mod laws;
