//! The shared table, of counters and over a whole tree, by one core and by several at once.
#![tactic(auto)]

#[cfg(test)]
mod helpers;
#[cfg(test)]
mod table;
#[cfg(test)]
mod table_calls;
#[cfg(test)]
mod table_ends;
#[cfg(test)]
mod table_lies;
#[cfg(test)]
mod table_tree;
