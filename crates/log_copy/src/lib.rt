//! A copy of a core's log that has what a look at some nodes asks for.
#![tactic(auto)]

mod copying;
mod naming;

pub use copying::copy_for;
