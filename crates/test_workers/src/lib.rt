//! Workers that run scripts in threads, over no disk.
#![tactic(auto)]

#[cfg(test)]
mod beside;
#[cfg(test)]
mod drawn;
#[cfg(test)]
mod fsyncs;
#[cfg(test)]
mod full;
#[cfg(test)]
mod helpers;
#[cfg(test)]
mod judged;
#[cfg(test)]
mod loops;
#[cfg(test)]
mod played;
