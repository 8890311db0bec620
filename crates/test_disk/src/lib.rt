//! Disks, and what is made, committed, read, recovered and mounted on them, with values worked out by hand.
#![tactic(auto)]

#[cfg(test)]
mod commits;
#[cfg(test)]
mod device;
#[cfg(test)]
mod disks;
#[cfg(test)]
mod helpers;
#[cfg(test)]
mod images;
#[cfg(test)]
mod making;
#[cfg(test)]
mod mounting;
#[cfg(test)]
mod moved;
#[cfg(test)]
mod reading;
#[cfg(test)]
mod recovering;
#[cfg(test)]
mod rings;
#[cfg(test)]
mod turns;
