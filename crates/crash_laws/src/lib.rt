//! What a crash leaves of a history with fsyncs.
#![tactic(auto)]

mod laws;

pub use laws::{
    calls_keep, commits_keep, disks_stay, failures_keep, images_survive, nothing_is_a_commit,
    past_is_kept, reads_write_nothing, refusals_raise_nothing, runs_begin, runs_read_back,
    stopped_keep,
};
