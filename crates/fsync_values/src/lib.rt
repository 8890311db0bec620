//! The values of the cells that an fsync holds, while they are out: what the disk has of their nodes is lent to a plan, and put back where
//! anything is refused; or they get what a durable commit leaves of the nodes.
#![tactic(auto)]

mod lending;
mod renewing;
mod spares;

pub use lending::{lend, restore};
pub use renewing::{Renewal, renew};
pub use spares::{hollow_values, spare_boxes};
