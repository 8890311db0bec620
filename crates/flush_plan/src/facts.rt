// What is known of the nodes that an fsync touches once its members' cuts are lifted.
use sfs_base::Kind;
use std::collections::{BTreeMap, BTreeSet};

// Those that are named then, those with a naming that is not flushed then, and the kinds of those that
// changes name.
#[derive(Drop)]
pub(crate) struct Facts {
    pub(crate) named: BTreeSet<u32>,
    pub(crate) unflushed: BTreeSet<u32>,
    pub(crate) kinds: BTreeMap<u32, Kind>,
}
