//! Cores at the journals of one disk that commit made transactions, turn by turn on one thread or side by side in threads.
#![tactic(auto)]

mod asking;
mod beginning;
mod book;
mod driven;
mod due;
mod job;
mod order;
mod resting;
mod seat;
mod stepping;
mod whole;

pub use beginning::begun;
pub use book::{Book, File, Made};
pub use driven::{Driven, Ended};
pub use due::{Came, Due};
pub use order::{Order, Until};
pub use seat::Seat;
