ghost use Rattle.disk_change.specs.CountNets.{CountsNets};

use crate::files::FileChangeList;
use crate::kinds::Directories;
use crate::links::LinkChanges;
use crate::net_list::NetList;

// What a commit changes: which nodes are directories, the nets of directories, with what they change in
// link counts, and the changes of files.
#[derive(Drop)]
pub(crate) struct Plans {
    pub(crate) directories: Directories,
    pub(crate) nets: NetList,
    pub(crate) links: LinkChanges,
    pub(crate) files: FileChangeList,
    ghost counted: { CountsNets directories nets.items links },
}
