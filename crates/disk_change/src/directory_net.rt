ghost use Rattle.disk_change.specs.Lists.{NamesAscend};

use absorb::Net;
use sfs_base::NodeId;

/// A directory and the net of its rows.
#[derive(Drop)]
pub struct DirectoryNet {
    pub node: NodeId,
    pub net: Net,
    ghost ascending: { NamesAscend net.items },
}
