//! A rename on the shared table.
#![tactic(auto)]

mod answers;
mod asked;
mod changing;
mod holding;
pub mod laws;
mod looking;
mod moving;
mod plans;
mod readying;
mod renaming;
mod rounds;
mod settling;
mod shifts;
mod sides;
mod sights;
mod ways;

pub use renaming::{RENAME_CELLS, rename};
pub use sides::Move;
