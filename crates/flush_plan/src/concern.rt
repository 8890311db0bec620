use disk_change::NetList;
use sfs_base::NodeList;

/// What an fsync concerns: the members, which it flushes, the members and the children of the changes in
/// their spans, and the nets of the members. Each list ascends by node.
#[derive(Drop)]
pub struct Concern {
    pub members: NodeList,
    pub nodes: NodeList,
    pub nets: NetList,
}
