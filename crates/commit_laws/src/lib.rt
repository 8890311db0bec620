//! That what a commit writes is what stands for its tree.
#![tactic(auto)]

mod laws;

pub use laws::{
    alike_images_stand, built_nodes_show, built_nodes_show_their_inodes, changes_leave_trees,
    changes_make_commits, fresh_blocks_are_granted, given_numbers_are_those, good_parts_fit,
    good_parts_have_none_behind, granted_blocks_are_written, inodes_are_granted_or_old,
    kept_parts_show, needs_are_those, net_slots_are_those, nets_count_links,
    nodes_are_built_by_rank, plans_keep_parts, plans_keep_shown, plans_leave_good_bytes,
    plans_leave_parts, plans_leave_trees, plans_make_commits, plans_make_directories,
    plans_make_files, plans_make_parts, plans_need_as_defined, plans_point_to_data,
    plans_rewrite_as_defined, plans_show_inodes, plans_turn_parts, plans_write_apart,
    plans_write_parts, same_rewrites_take_the_same,
};
