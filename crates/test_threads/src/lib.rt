//! What workers do side by side through the top call: that they do not wait for one another, and that what they do together is whole.
#![tactic(auto)]

#[cfg(test)]
mod bodies;
#[cfg(test)]
mod helpers;
#[cfg(test)]
mod loops;
#[cfg(test)]
mod meetings;
#[cfg(test)]
mod orders;
#[cfg(test)]
mod runs;
#[cfg(test)]
mod spools;
