//! The bytes of a file in memory, in pages, with the stamp of the last change of each block.
#![tactic(auto)]

mod file;
pub mod laws;
mod marks;
mod page;
mod pages;
mod touched;
mod touching;

pub use file::{FileBytes, LONGEST_FILE};
pub use touched::{Touched, TouchedBlock, TouchedFile};
