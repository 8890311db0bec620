//! The slots of a directory and the block of 15 slots, between bytes and values.
#![tactic(auto)]

mod block;
mod list;
mod slot;

pub use block::{SLOTS, SlotBlock, decode, encode};
pub use list::{SlotList, copy_list};
pub use slot::{SLOT_BYTES, SlotFault, SlotRow, decode_slot, encode_slot};
