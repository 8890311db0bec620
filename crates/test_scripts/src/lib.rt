//! Scripts, texts and histories; the rows, logs and nets of directories, with values worked out by hand.
#![tactic(auto)]

#[cfg(test)]
mod copies;
#[cfg(test)]
mod cuts;
#[cfg(test)]
mod helpers;
#[cfg(test)]
mod histories;
#[cfg(test)]
mod logs;
#[cfg(test)]
mod nets;
#[cfg(test)]
mod scripts;
#[cfg(test)]
mod texts;
#[cfg(test)]
mod trees;
