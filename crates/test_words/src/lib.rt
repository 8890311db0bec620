//! The words of the command line, and the scripts that they ask for.
#![tactic(auto)]

#[cfg(test)]
mod helpers;
#[cfg(test)]
mod lists;
#[cfg(test)]
mod scripts;
