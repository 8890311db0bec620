//! Certificates of images: what they tell, and when they are accepted, with values worked out by hand.
#![tactic(auto)]

#[cfg(test)]
mod certifying;
#[cfg(test)]
mod changed;
#[cfg(test)]
mod failing;
#[cfg(test)]
mod helpers;
#[cfg(test)]
mod images;
#[cfg(test)]
mod writing;
