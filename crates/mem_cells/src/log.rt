// The changes of one directory that a core has made, from a mark on, the oldest first.
ghost use Rattle.std.specs.Prelude.{◌≡◌, ◌-◌, ◌<◌, ◌≤◌, ◌==◌, [], ◌∷◌, ◌++◌, slice_get, length, max, All, IfOk, OnOk, OnErr};
ghost use Rattle.std.specs.Option.{option_copied};
ghost use Rattle.mem_cells.specs.Log.{log_place, IsInOrder, TakesBelow};
ghost use Rattle.mem_cells.specs.Part.{blank_log};

use sfs_base::{NoMemory, RoomyList, Stamp};
use std::alloc::Global;
use std::collections::VecDeque;
use std::marker::Model;
use tree_laws::{Change, Changes};

/// A directory's changes, the oldest first, and the mark below which they were trimmed.
#[derive(Drop)]
pub(crate) struct DirectoryLog {
    mark: Stamp,
    changes: VecDeque<Change>,
    room: u64,
}

impl Model for DirectoryLog {
    ghost use Rattle.std.specs.VecDeque.{deque_len, deque_capacity};
    ghost use Rattle.mem_cells.specs.Log.{Log, HasPlaces};

    ghost Value = { Log };

    ghost view = { λ d. record {
      mark = d.mark.0;
      changes = d.changes.items;
      room = d.room;
    } };

    ghost invariant = { λ d. HasPlaces d.changes.items (deque_len d.changes) (deque_capacity d.changes) d.room };
}

impl DirectoryLog {
    /// No change, and the mark 0. It takes no memory.
    pub(crate) fn new(alloc: Global) -> Self
        ensures { result ≡ blank_log }
    {
        DirectoryLog {
            mark: Stamp(0),
            changes: VecDeque::new(alloc),
            room: 0,
        }
    }

    /// For how many more changes there is room.
    pub(crate) fn room(&self) -> u64
        ensures { result ≡ self.now.room }
    {
        self.room
    }

    /// Makes room for `count` changes at least, and never lowers it.
    pub(crate) fn reserve(&mut self, count: u32) -> Result<(), NoMemory>
        ensures ok { OnOk result (self.new ≡ record self.old { room = max self.old.room count }) }
        ensures err { OnErr result (self.new ≡ self.old) }
    {
        self.changes
            .reserve((count as usize).max(self.room as usize))?;
        self.room = self.room.max(count as u64);
        Ok(())
    }

    /// Puts a change last, into room that was reserved. It takes no memory.
    pub(crate) fn push(&mut self, change: Change)
        requires room { 0 < self.old.room }
        requires last { All (λ other. log_place other ≤ log_place change) self.old.changes }
        ensures { self.new ≡ record self.old { changes = self.old.changes ++ change ∷ []; room = self.old.room - 1 } }
    {
        self.changes.push_back_reserved(change);
        self.room -= 1;
    }

    /// Takes the first change out, where it lies below a stamp. It takes no memory.
    pub(crate) fn take_below(&mut self, below: Stamp) -> Option<Change>
        ensures { TakesBelow below.0 self.old result self.new }
    {
        if begins_below(&self.changes, below) {
            self.changes.pop_front()
        } else {
            None
        }
    }

    /// Makes the mark this stamp at least.
    pub(crate) fn raise(&mut self, below: Stamp)
        ensures { self.new ≡ record self.old { mark = max self.old.mark below.0 } }
    {
        if self.mark.0 < below.0 {
            self.mark = below;
        }
    }

    /// The change at this place, the oldest at 0. `None` is past the last.
    pub(crate) fn get(&self, place: u64) -> Option<&Change>
        ensures value { option_copied result ≡ slice_get self.now.changes place }
        ensures ordered { IsInOrder self.now.changes }
    {
        self.changes.get(place as usize)
    }

    /// Whether there is no change.
    pub(crate) fn is_empty(&self) -> bool
        ensures { result ≡ (length self.now.changes == 0) }
    {
        self.changes.is_empty()
    }

    /// The changes in their order.
    pub(crate) fn copy_changes(&self, alloc: Global) -> Result<Changes, NoMemory>
        ensures { IfOk result (λ changes. changes.items ≡ self.now.changes) }
    {
        Ok(RoomyList::from_vec(copy_all(alloc, &self.changes)?))
    }

    /// The mark below which changes were trimmed.
    pub(crate) fn mark(&self) -> Stamp
        ensures { result.0 ≡ self.now.mark }
    {
        self.mark
    }

    /// An equal log.
    pub(crate) fn copy(&self) -> Result<DirectoryLog, NoMemory>
        ensures { IfOk result (λ log. log ≡ self.now) }
    {
        let copies = copy_all(*self.changes.allocator(), &self.changes)?;
        let mut changes = VecDeque::from_vec(copies);
        changes.reserve(self.room as usize)?;
        Ok(DirectoryLog {
            mark: self.mark,
            changes,
            room: self.room,
        })
    }
}

// Equal changes, in the same order.
fn copy_all(alloc: Global, changes: &VecDeque<Change>) -> Result<Vec<Change>, NoMemory>
    ensures { IfOk result (λ copies. copies.items ≡ changes.now.items) }
{
    let mut copies = Vec::with_capacity(alloc, changes.len())?;
    for change in changes.iter() {
        copies.push(change.copy()?)?;
    }
    Ok(copies)
}

ghost use Rattle.mem_cells.specs.Log.{begins_under};

// Whether the first change lies below a stamp.
fn begins_below(changes: &VecDeque<Change>, below: Stamp) -> bool
    ensures { result ≡ begins_under below.0 changes.now.items }
{
    match changes.front() {
        Some(change) => change.stamp.0 < below.0,
        None => false,
    }
}
