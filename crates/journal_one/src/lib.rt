//! One slot of a journal, in typed states from idle to idle.
#![tactic(auto)]

mod close;
mod doubt;
mod laws;
mod packed;
mod slot;
mod work;

pub use close::{Closing, Copied, Placed};
pub use doubt::{Doubt, sync};
pub use laws::{
    bodies_are_read, fillings_begin, heads_are_spelled, open_slots_settle, pieces_leave_the_gate,
    placed_records_are_in_the_table, sheds_keep,
};
pub use packed::Packed;
pub use slot::{Durable, Fill, Filled, Filling, Idle, Opened, Put, Sealed};
