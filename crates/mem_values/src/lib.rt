//! What the cells of a table over a file tree hold, where each lies, and what it stands for.
#![tactic(auto)]

mod bucket;
mod cell;
mod cell_id;
mod fact;
mod file_table;
mod holding;
mod kept_node;
pub mod laws;
mod slot;

pub use bucket::Bucket;
pub use cell::{Cell, FileCell, PartCell, Pending, TreeLock};
pub use cell_id::CellId;
pub use fact::{Fact, HeldNode};
pub use file_table::FileTable;
pub use holding::{FileCore, FileShared, has_inode, hold_cells, replace_value, value_of};
pub use kept_node::KeptNode;
