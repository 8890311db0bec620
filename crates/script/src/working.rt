// The calls that a worker makes for its commands.
mod calls;
pub mod course;
mod steps;
