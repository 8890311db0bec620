//! The words of the command line, read by `clap` as a command with subcommands, and their numbers.
#![tactic(auto)]

mod asked;
mod command;
mod grammar;
mod reading;

pub use asked::command_asked;
pub use command::{Command, WordsFault};
