//! The box with a disk, its journal slots and what is known of them, which one core has at a time.
#![tactic(auto)]

mod desk;
mod entering;
mod failing;
mod key;
mod kind;
mod learning;
mod meaning;
mod steps;
mod turns;

pub use desk::{Desk, Phase, Slot};
pub use entering::{enter, leave, note};
pub use failing::{fail_opened, fail_unopened};
pub use key::BoxKey;
pub use kind::Kind;
pub use learning::{halt, learn};
pub use meaning::{BoxMeaning, BoxTable, Pen};
pub use steps::{
    fill_one, may_place, oldest, open_one, others_write, place_one, shut_one, step_oldest, sync_all,
};
pub use turns::{Fsync, note_turn};
