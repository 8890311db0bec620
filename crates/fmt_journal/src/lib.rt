//! A journal slot between bytes and values, and the transaction that is written into one.
#![tactic(auto)]

mod entries;
mod head;
mod tx;

pub use entries::{SlotPlace, number_place, numbers_fault, record_place};
pub use head::{Head, decode_head, encode_head, head_fault};
pub use tx::{Tx, TxBlock, TxRecord};
