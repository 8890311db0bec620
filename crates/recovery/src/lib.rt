//! Making a disk, and recovering it: what an image settles, and how its slots are closed.
#![tactic(auto)]

mod closing;
mod fault;
mod homing;
mod journals;
mod judged;
pub mod laws;
mod linked;
mod making;
mod newest;
mod orphans;
mod places;
mod settled;
mod settling;
mod whole;

pub use fault::{MkfsFault, RecoverFault};
pub use making::mkfs;
pub use settled::{Settled, read_settled};
pub use whole::{Report, recover};
