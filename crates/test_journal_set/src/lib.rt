//! Commits of several cores through the journals of one disk, in turns and in threads, with each device call failing, and what crashes leave.
#![tactic(auto)]

#[cfg(test)]
mod bases;
#[cfg(test)]
mod faults;
#[cfg(test)]
mod helpers;
#[cfg(test)]
mod judging;
#[cfg(test)]
mod lingering;
#[cfg(test)]
mod one_core;
#[cfg(test)]
mod refusals;
#[cfg(test)]
mod sides;
#[cfg(test)]
mod sweeps;
#[cfg(test)]
mod two_cores;
