//! What cores keep in memory: the log of a core's changes.
#![tactic(auto)]

pub mod laws;
mod log;
mod namings;
mod part;

pub use part::LogPart;
