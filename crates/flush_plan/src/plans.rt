use disk_change::DiskChange;
use sfs_base::NodeList;

/// What an fsync comes to: the members, the nodes that it touches, those of them that lose their inodes,
/// and the change of the disk. Each list ascends.
#[derive(Drop)]
pub struct FsyncPlan {
    pub members: NodeList,
    pub nodes: NodeList,
    pub leave: NodeList,
    pub change: DiskChange,
}
