//! The beginning of a table over a file tree: the values of its cells, and the table with its cores.
#![tactic(auto)]

mod bucket;
mod cell;
mod file;
mod place;
mod table;

pub use table::make;
