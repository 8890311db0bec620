//! The shared table: cells that cores hold one at a time, a word from which they draw stamps, and one history of their calls.
#![tactic(auto)]

mod close;
mod event;
mod hand;
mod held;
mod make;
mod meaning;
mod shared;
mod values;
mod view;

pub use event::Event;
pub use hand::Core;
pub use held::HeldCell;
pub use meaning::{Law, Meaning, Telling};
pub use shared::Shared;
pub use view::View;
