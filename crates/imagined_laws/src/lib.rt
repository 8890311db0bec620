//! What images show of volumes that are imagined along a record.
#![tactic(auto)]

pub mod laws;
