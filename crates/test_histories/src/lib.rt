//! Texts of histories that are legal, and texts that are wrong at a line.
#![tactic(auto)]

#[cfg(test)]
mod examples;
#[cfg(test)]
mod helpers;
#[cfg(test)]
mod legal;
#[cfg(test)]
mod trees;
#[cfg(test)]
mod wrong;
