//! The journals of all cores, as far as they stand.
#![tactic(auto)]

#[cfg(test)]
mod helpers;
#[cfg(test)]
mod ledgers;
