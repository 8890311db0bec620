//! What the inodes of an image stand for, and what a commit keeps of it.
#![tactic(auto)]

mod laws;

pub use laws::{
    blocks_are_kept_or_rewritten, blocks_end_with_row, byte_blocks_show, commits_hold_their_blocks,
    commits_keep_directories_fit, commits_keep_standing, empty_blocks_are_holes,
    first_fault_is_least, free_inodes_break_no_tree_rule, freed_orphans_keep_the_tree,
    grants_give_numbers, made_images_are_commits, nets_give_links, nets_keep_places,
    no_commit_is_a_step, no_fault_is_rules_kept, orphans_break_no_tree_rule,
    planned_commits_hold_elsewhere, ranks_go_on, ranks_serve_grants, ranks_take_free_blocks,
    renamed_trees_have_one_shape, rules_make_standing, slot_blocks_show, standing_images_are_read,
    standing_images_show, standing_parts_are_read, tables_are_rewritten_where_they_change,
    trees_of_images_are_mounted, unconcerned_nodes_stay,
};
