//! The verdict on an image as a text: a certificate that was accepted, or the first fault.
#![tactic(auto)]

mod judging;
mod text;

pub use judging::{Verdict, write_verdict};
