//! Calls of the file tree on the shared table, side by side.
#![tactic(auto)]

mod calls;
mod coming;
mod creations;
mod edit;
mod edits;
mod emptied;
mod finish;
mod held;
mod holding;
mod links;
mod lists;
mod lookup;
mod making;
mod numbers;
mod reads;
mod ready;
mod removals;
mod rows;
mod settling;
mod short;
mod standing;
mod status;
mod table;
mod taking;

pub use calls::call;
pub use creations::make;
pub use edits::{trunc, write};
pub use emptied::rmdir;
pub use finish::finish as answer_call;
pub use held::{bucket_in, directory_fault_in, file_in, is_standing};
pub use holding::{CALL_CELLS, hold_directory, hold_more, hold_part, let_all_go};
pub use links::{BUCKET_ROWS, link};
pub use lists::list;
pub use lookup::look;
pub use numbers::Numbers;
pub use reads::read;
pub use removals::unlink;
pub use short::Short;
pub use status::stat;
pub use table::TreeTable;
pub use taking::{add_entry, put, put_bucket, take_bucket, take_file, take_part};
