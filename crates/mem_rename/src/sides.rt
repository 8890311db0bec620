// The two places that a rename names.
ghost use Rattle.std.specs.Prelude.{◌≡◌};
ghost use Rattle.mem_rename.specs.Sights.{rename_call};

use sfs_base::{Name, NodeId};
use tree_laws::Call;

/// A rename: the row of a name in a directory goes to a name in another directory or the same one.
#[derive(Drop)]
pub struct Move {
    pub directory: NodeId,
    pub name: Name,
    pub to_directory: NodeId,
    pub to_name: Name,
}

impl Move {
    /// The call that it is.
    pub(crate) fn into_call(self) -> Call
        ensures { result ≡ rename_call self }
    {
        Call::Rename {
            dir: self.directory,
            name: self.name,
            to_dir: self.to_directory,
            to_name: self.to_name,
        }
    }
}
