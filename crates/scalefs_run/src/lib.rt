//! The top call: it makes an image, shows or verifies one, runs a script and writes its history, or checks a history.
#![tactic(auto)]

mod checked;
mod image;
pub mod laws;
mod outcome;
mod refused;
mod running;
mod scripts;
mod top;
mod verified;
mod without_core;
mod writing;

pub use outcome::{ImageFault, Outcome, Status, status_line};
pub use top::run;
