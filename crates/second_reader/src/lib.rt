//! A second reader of a history's text, by std's own words and numbers, and what it and the check say of texts.
#![tactic(auto)]

mod calls;
mod dice;
mod found;
mod player;
mod reader;
mod trees;

pub use dice::Dice;
pub use found::{CHANGED, Found, Text, change, compare};
pub use player::Player;
pub use reader::{Verdict, read};
pub use trees::{FIRST, SHARE, answer};
