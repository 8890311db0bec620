//! The script of a run: its lines read as commands, the calls that a worker makes for them, and the history written as text.
#![tactic(auto)]

mod commands;
mod fault;
mod phases;
mod reading;
mod working;
mod writing;

pub use commands::{Command, Line, NamePath};
pub use fault::ScriptFault;
pub use phases::{Phase, Script};
pub use reading::literals::number_up_to;
pub use reading::{LONGEST_SCRIPT, MOST_LINES, read};
pub use working::course::Course;
pub use writing::text;
pub use writing::tree::tree_text;
