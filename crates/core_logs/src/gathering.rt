// What an fsync gathers of the logs.
ghost use Rattle.std.specs.Prelude.{◌≡◌, IfOk};
ghost use Rattle.core_logs.specs.Logs.{AreGathered};

use crate::CoreLogs;
use dep_closure::{DirectoryChanges, LogList};
use log_merge::merge;
use sfs_base::{NoMemory, NodeId, Stamp};
use std::alloc::Global;

impl CoreLogs {
    /// The changes below a stamp, of each directory in one list by their stamps, directories ascending. It
    /// takes time in proportion to the changes, times the number of cores. Only want of memory refuses it.
    pub fn gather(&self, alloc: Global, below: Stamp) -> Result<LogList, NoMemory>
        ensures { IfOk result (λ logs. AreGathered self.now below.0 logs.items) }
    {
        let mut logs = LogList::new(alloc);
        for directory in &self.directories {
            let dir = NodeId(*directory);
            let changes = merge(alloc, &self.parts, dir, below)?;
            logs.reserve(1)?;
            logs.push(DirectoryChanges { dir, changes });
        }
        Ok(logs)
    }
}
