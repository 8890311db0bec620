//! What a core that gathered enough brings to the volume that is imagined as it reserves.
#![tactic(auto)]

pub mod laws;
