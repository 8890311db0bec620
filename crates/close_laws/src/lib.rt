//! What labels of journal slots come to beside what commits bring, and what a crash leaves of a mount of many cores.
#![tactic(auto)]

pub mod laws;
