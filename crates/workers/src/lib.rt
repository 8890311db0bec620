//! Workers run their commands side by side, a core and a thread each, over any way to flush.
#![tactic(auto)]

mod calls;
mod driving;
mod flush;
mod flush_by;
pub mod laws;
mod plain;
mod worker;

pub use calls::call_worker;
pub use driving::drive;
pub use flush::Flush;
pub use flush_by::{Agreement, FlushBy};
pub use plain::{AgreeAlways, Plainly, drive_plainly, serve_plainly};
pub use worker::Worker;
