//! What the turns of many cores say together, from what each core and its pen agree on.
#![tactic(auto)]

pub mod laws;
