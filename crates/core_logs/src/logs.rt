// A log for each core, and the directories of which one of them may have changes.
ghost use Rattle.std.specs.Prelude.{◌≡◌, ◌<◌, ◌≤◌, ◌^◌, ℕ, true, length, IfOk, OnOk};
ghost use Rattle.std.specs.Ordering.{nat_cmp};
ghost use Rattle.std.specs.BTreeSet.{contains};
ghost use Rattle.mem_cells.specs.Part.{room_kept};
ghost use Rattle.core_logs.specs.Logs.{AreBlank, AreSameChanges, HasRoom, AreWithEntry, MayAdd, part_of};

use mem_cells::LogPart;
use sfs_base::{CoreId, NoMemory, NodeId};
use std::alloc::Global;
use std::collections::BTreeSet;
use std::marker::Model;
use tree_laws::Changes;

/// The changes of rows that calls made, in the log of the core of each, and the directories of which there
/// may be some. Contracts see the logs by core and these directories.
#[derive(Drop)]
pub struct CoreLogs {
    pub(crate) parts: Vec<LogPart>,
    pub(crate) directories: BTreeSet<u32>,
}

impl Model for CoreLogs {
    ghost use Rattle.core_logs.specs.Logs.{Logs};

    ghost Value = { Logs };

    ghost view = { λ logs. record { parts = logs.parts.items; directories = logs.directories } };
}

impl CoreLogs {
    /// No changes, for so many cores.
    pub fn new(alloc: Global, cores: u8) -> Result<CoreLogs, NoMemory>
        ensures { IfOk result (AreBlank cores) }
    {
        let mut parts = Vec::new(alloc);
        for _ in 0..cores {
            parts.push(LogPart::new(alloc))?;
        }
        Ok(CoreLogs {
            parts,
            directories: BTreeSet::new(alloc),
        })
    }

    /// Makes room for the changes of a core's next entry.
    pub fn reserve(&mut self, core: CoreId, changes: &Changes) -> Result<(), NoMemory>
        requires core { core.0 < length self.old.parts }
        requires few { length changes.now.items < 2 ^ 32 }
        ensures room { OnOk result (HasRoom self.new core.0 changes.now.items) }
        ensures same { AreSameChanges self.old self.new }
    {
        let count = changes.len() as u32;
        for change in changes.as_slice() {
            self.reserve_one(core, change.dir, count)?;
        }
        Ok(())
    }

    // Lists a directory, and makes room for so many of its changes.
    fn reserve_one(&mut self, core: CoreId, dir: NodeId, count: u32) -> Result<(), NoMemory>
        requires core { core.0 < length self.old.parts }
        ensures listed { OnOk result (contains nat_cmp self.new.directories dir.0 ≡ true) }
        ensures room { OnOk result (count ≤ room_kept (part_of self.new core.0) dir.0) }
        ensures never_lowers { (other : ℕ) → room_kept (part_of self.old core.0) other ≤ room_kept (part_of self.new core.0) other }
        ensures same { AreSameChanges self.old self.new }
    {
        self.directories.insert(dir.0)?;
        let part = &mut self.parts[core.0 as usize];
        part.reserve(dir, count)
    }

    /// Puts the changes of a core's next entry behind those that it has, into room that was reserved. It
    /// takes no memory.
    pub fn add(&mut self, core: CoreId, changes: Changes)
        requires core { core.0 < length self.old.parts }
        requires may { MayAdd self.old core.0 changes.items }
        ensures { AreWithEntry self.old core.0 changes.items self.new }
    {
        let part = &mut self.parts[core.0 as usize];
        part.add(changes);
    }
}
