//! Words and ends, the formats, free space, the pages of files, and what a commit writes: each call once, each fault once, with
//! values worked out by hand.
#![tactic(auto)]

#[cfg(test)]
mod changing;
#[cfg(test)]
mod ends;
#[cfg(test)]
mod files;
#[cfg(test)]
mod helpers;
#[cfg(test)]
mod indexed;
#[cfg(test)]
mod inodes;
#[cfg(test)]
mod journal;
#[cfg(test)]
mod names;
#[cfg(test)]
mod slots;
#[cfg(test)]
mod space;
#[cfg(test)]
mod superblock;
