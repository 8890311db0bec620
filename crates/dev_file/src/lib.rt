//! A disk over a file of the operating system.
#![tactic(auto)]

mod file_disk;
mod transfer;

pub use file_disk::FileDisk;
