//! What the bytes on the disk mean: each format by its value, its first fault and its one spelling, and
//! an image by the parts of its inodes.
#![tactic(auto)]

mod bad;
mod laws;
mod limits;
mod zeros;

pub use bad::Bad;
pub use laws::{
    accepted_images_stand, blocks_have_one_place, body_writes_keep, bytes_are_the_blocks,
    data_writes_keep, directories_show_their_slots, entries_are_read_again, fields_have_places,
    files_show_their_bytes, free_inodes_break_none, fresh_blocks_make_parts,
    gates_say_which_are_open, head_is_read_again, holes_are_zeros, images_stand_for_parts,
    inode_is_format, journal_faults_are_first, just_made_shows_root, layouts_divide,
    left_gates_keep, made_parts_turn, newest_records_fill, oldest_of_its_inodes_may_shut,
    opened_gates_add, parts_are_what_they_reach, pointers_are_format, pointers_cover,
    pointers_have_places, ranges_have_entries, rings_lie_core_by_core, rules_say,
    settled_is_newest, settled_is_tables, shut_gates_keep, slot_block_is_format, slot_is_format,
    slots_are_numbered, super_is_format, table_writes_keep, tables_stay_full,
};
pub use limits::MOST_SLOTS;
pub use zeros::{clear, first_nonzero};
