//! Commits of planned changes through the journals of one disk.
#![tactic(auto)]

#[cfg(test)]
mod changes;
#[cfg(test)]
mod commits;
#[cfg(test)]
mod helpers;
#[cfg(test)]
mod refusals;
