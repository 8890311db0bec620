//! Runs of the top call over disks in memory, with their texts and statuses worked out by hand.
#![tactic(auto)]

#[cfg(test)]
mod bench;
#[cfg(test)]
mod device_calls;
#[cfg(test)]
mod ends;
#[cfg(test)]
mod flushed;
#[cfg(test)]
mod helpers;
#[cfg(test)]
mod histories;
#[cfg(test)]
mod images;
#[cfg(test)]
mod made;
#[cfg(test)]
mod refusals;
#[cfg(test)]
mod rings;
#[cfg(test)]
mod rows;
#[cfg(test)]
mod space;
#[cfg(test)]
mod statuses;
#[cfg(test)]
mod sweeps;
#[cfg(test)]
mod turns;
