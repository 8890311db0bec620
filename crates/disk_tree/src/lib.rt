//! Reads the inodes of an image, judges them by the rules, and makes the tree that they show.
#![tactic(auto)]

mod apart;
mod blocks;
mod build;
mod by_name;
mod contents;
mod fault;
mod found;
mod gather;
mod inodes;
mod judge;
mod laws;
mod ordered;
mod pointers;
mod reached;
mod read;
mod rows;
mod stages;

pub use fault::TreeFault;
pub use found::{Found, KeptPart, PartList};
pub use inodes::{DIRECTORY, FILE};
pub use judge::first_with_wrong_links;
pub use laws::{
    count_tests_are_rules, faultless_parts_are_ruled, faults_are_the_images, found_is_the_images,
    reached_test_is_rule, read_parts_show_rows, row_tests_are_rules,
};
pub use ordered::{judge_rows, judged_naming};
pub use read::{ReadInodes, read_all, read_tree};
pub use rows::{RowList, count_named, gather_rows};
