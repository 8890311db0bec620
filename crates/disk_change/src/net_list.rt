// The nets of the directories whose rows a commit changes.
ghost use Rattle.disk_change.specs.Nodes.{net_node};

use crate::directory_net::DirectoryNet;
use keyed_list::{Keyed, KeyedList, Numbered};

impl Numbered for DirectoryNet {
    ghost number = { net_node };
}

impl Keyed for DirectoryNet {
    fn key(&self) -> u32 {
        self.node.0
    }
}

/// The nets of directories, ascending by directory.
pub type NetList = KeyedList<DirectoryNet>;
