//! Ends that no file and no memory gives, a very long source and a disk that changes while it is read, and what the top call says to them.
#![tactic(auto)]

mod changing;
#[cfg(test)]
mod helpers;
#[cfg(test)]
mod images;
#[cfg(test)]
mod lengths;
mod long_source;

pub use changing::Changing;
pub use long_source::LongSource;
