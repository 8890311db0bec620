//! What is proved of needs and of turns: each function's contract is a law.
mod books;
mod needs;
mod one_thread;
mod turns;
mod ways;

pub use books::{
    commits_leave_the_next_tree, granted_are_given_in_order, rewritten_have_what_they_need,
};
pub use needs::{
    blocks_are_listed, held_are_found, inodes_are_listed, needs_once, nodes_are_counted,
    rewrites_need_no_numbers,
};
pub use one_thread::{
    calls_fail, calls_stand, commits_stand, doubts_fail, empty_commits_stand, failed_are_recorded,
    given_back_stand, halts_fail, opened_doubts_fail, shorts_stand, standing_are_recorded,
    turns_begin,
};
pub use turns::{
    failures_stop_commits, grants_are_taken_up, replies_have_causes, reserved_is_not_free,
    turns_are_a_run, turns_are_flushed,
};
pub use ways::{no_call_goes, ways_go_on};
