//! The plain program of cuts and commits: the machine that takes calls and commits, and which rule a cut breaks.
#![tactic(auto)]

mod closure;
mod cut;
mod flight;
mod named;
mod past;
mod plan;
mod raise;
mod rules;
mod sets;
mod state;
mod story;

pub use cut::Cut;
pub use cut_laws::{CommitList, Event, Refused};
pub use rules::Rule;
pub use state::State;
pub use story::Story;
