//! Fsyncs on the shared table, as far as they stand.
#![tactic(auto)]

#[cfg(test)]
mod helpers;
#[cfg(test)]
mod looks;
