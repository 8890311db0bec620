// The changes of each directory, merged of copies of the cores' logs.
ghost use Rattle.std.specs.Prelude.{map, All, IfOk};
ghost use Rattle.std.specs.List.Sorted.{IsStrictlyIncreasing};
ghost use Rattle.dep_closure.specs.Gathered.{log_directory, IsOwnLog};
ghost use Rattle.note_laws.specs.Merged.{EndBelow, AreMergedOf};
ghost use Rattle.fsync_gather.specs.Gathers.{KeepOwn};

use crate::PAST_ALL_STAMPS;
use crate::next::next_directory;
use dep_closure::{DirectoryChanges, LogList};
use log_merge::merge;
use mem_cells::LogPart;
use sfs_base::{NoMemory, Stamp};
use std::alloc::Global;

/// The changes of each directory of which one of the logs keeps one, directories ascending. It takes time in proportion to the changes
/// and the directories, times the number of logs. Only want of memory refuses it.
pub(crate) fn merge_all(alloc: Global, parts: &[LogPart]) -> Result<LogList, NoMemory>
    requires ends { EndBelow parts.now PAST_ALL_STAMPS }
    requires own { KeepOwn parts.now }
    ensures ascend { IfOk result (λ logs. IsStrictlyIncreasing (map log_directory logs.items)) }
    ensures merged { IfOk result (λ logs. AreMergedOf parts.now logs.items) }
    ensures own { IfOk result (λ logs. All IsOwnLog logs.items) }
{
    let mut logs = LogList::new(alloc);
    let mut after = None;
    while let Some(dir) = next_directory(parts, after) {
        let changes = merge(alloc, parts, dir, Stamp(PAST_ALL_STAMPS))?;
        logs.reserve(1)?;
        logs.push(DirectoryChanges { dir, changes });
        after = Some(dir);
    }
    Ok(logs)
}
