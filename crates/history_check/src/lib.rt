//! Whether a printed history is legal: its lines are read one by one, and the tree goes along.
#![tactic(auto)]

mod calls;
mod checking;
mod fault;
pub mod laws;
mod line;
mod replies;
mod verbs;
mod words;

pub use checking::{LONGEST_HISTORY, check};
pub use fault::CheckFault;
