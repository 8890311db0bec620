//! The calls of the tree of one thread, and what fsyncs flush of them, with values worked out by hand.
#![tactic(auto)]

#[cfg(test)]
mod calls;
#[cfg(test)]
mod closures;
#[cfg(test)]
mod failures;
#[cfg(test)]
mod helpers;
#[cfg(test)]
mod late_files;
#[cfg(test)]
mod machine;
#[cfg(test)]
mod shapes;
#[cfg(test)]
mod sweep;
#[cfg(test)]
mod written;
