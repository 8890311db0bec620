// What is left of the logs once changes are flushed.
ghost use Rattle.std.specs.Prelude.{◌≡◌, ◌∷◌, [], map};
ghost use Rattle.tree_laws.specs.NameRow.{node_number};
ghost use Rattle.core_logs.specs.Logs.{AreTrimmedOf, ArePartsTrimmed};

use crate::CoreLogs;
use mem_cells::LogPart;
use sfs_base::{NodeId, Stamp};

impl CoreLogs {
    /// Drops the changes of some directories below a stamp. It takes no memory, and time in proportion to the
    /// changes that it drops and to the directories, times the number of cores.
    pub fn trim(&mut self, directories: &[NodeId], below: Stamp)
        ensures { AreTrimmedOf self.old (map node_number directories.now) below.0 self.new }
    {
        for directory in directories {
            self.trim_one(*directory, below);
        }
    }

    // Drops the changes of one directory, which is no longer listed.
    fn trim_one(&mut self, directory: NodeId, below: Stamp)
        ensures { AreTrimmedOf self.old (directory.0 ∷ []) below.0 self.new }
    {
        trim_parts(&mut self.parts, directory, below);
        self.directories.remove(&directory.0);
    }
}

// Drops the changes of a directory below a stamp from the logs of all cores.
fn trim_parts(parts: &mut Vec<LogPart>, directory: NodeId, below: Stamp)
    ensures { ArePartsTrimmed parts.old.items directory.0 below.0 parts.new.items }
{
    for core in 0..parts.len() {
        let part = &mut parts[core];
        part.trim(directory, below);
    }
}
