//! What is proved of cuts, of fsyncs and of runs: each function's contract is a law.
mod cuts;
mod fsyncs;
mod growth;
mod inodes;
mod runs;

pub use cuts::{closed_cuts_are_sound, cuts_keep_kinds, directories_are_cut, files_are_cut};
pub use fsyncs::{
    closures_are_least, fsyncs_cover, fsyncs_keep, histories_are_covered, lists_cover, lists_keep,
};
pub use growth::{cut_trees_grow, entries_may_come, flushes_grow, stamps_are_once};
pub use inodes::{
    births_are_new_nodes, directories_are_named, directories_stay_named, files_enter_blank,
    files_flush_themselves, files_keep_inodes, files_settle, inodes_are_named,
    members_are_directories, none_is_dead, others_stay,
};
pub use runs::{
    all_are_tied, calls_are_a_run, commits_are_accepted, commits_are_tied, durables_are_covered,
    empty_runs, failures_stop_cuts, flights_stay, runs_are_flushed, runs_keep, runs_lengthen,
};
