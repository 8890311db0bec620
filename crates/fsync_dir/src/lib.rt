//! An fsync of any node on the shared table, flushed through the journals of all cores.
#![tactic(auto)]

mod answering;
mod attempt;
mod ending;
mod flushing;
mod members;
mod serving;
mod site;

pub use flushing::flush;
pub use site::FlushSite;
