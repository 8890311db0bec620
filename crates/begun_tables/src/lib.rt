//! Tables over trees that are built node by node and row by row.
#![tactic(auto)]

mod calls;
mod puts;
mod tables;

pub use calls::make_call;
pub use puts::{put_node, put_row, root_alone};
pub use tables::begun;
