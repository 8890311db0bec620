//! Scripts that workers run on mounted volumes: what they are answered, and what is on the disk then.
#![tactic(auto)]

#[cfg(test)]
mod again;
#[cfg(test)]
mod alone;
#[cfg(test)]
mod beside;
#[cfg(test)]
mod called;
#[cfg(test)]
mod crowded;
#[cfg(test)]
mod cuts;
#[cfg(test)]
mod drawn;
#[cfg(test)]
mod failing;
#[cfg(test)]
mod follows;
#[cfg(test)]
mod helpers;
#[cfg(test)]
mod judged;
#[cfg(test)]
mod machine;
#[cfg(test)]
mod moments;
#[cfg(test)]
mod runs;
#[cfg(test)]
mod scripts;
#[cfg(test)]
mod shaking;
#[cfg(test)]
mod smallest;
#[cfg(test)]
mod swept;
#[cfg(test)]
mod together;
#[cfg(test)]
mod told;
#[cfg(test)]
mod trees;
#[cfg(test)]
mod worked;
