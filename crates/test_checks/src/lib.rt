//! What `check` and `verify` do through the top call, over disks in memory.
#![tactic(auto)]

#[cfg(test)]
mod calls;
#[cfg(test)]
mod checks;
#[cfg(test)]
mod damaged;
#[cfg(test)]
mod ends;
#[cfg(test)]
mod full;
#[cfg(test)]
mod helpers;
#[cfg(test)]
mod verdicts;
