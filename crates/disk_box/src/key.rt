use fmt_super::Layout;
use space_map::SpaceMap;
use std::snapshot::Snapshot;

/// What a box is about: the layout of its disk, how many faults and device calls the disk counted as the box was made, what was free then, and,
/// in clauses alone, the disk as it was.
#[derive(Drop)]
pub struct BoxKey<D> {
    pub layout: Layout,
    pub faults: u64,
    pub start: u64,
    pub space: SpaceMap,
    pub first: Option<Snapshot<D>>,
}
