ghost use Rattle.std.specs.Prelude.{◌≡◌, ◌+◌, ◌^◌, ◌<◌, ◌==◌, [], length, slice_get, OnSome, IfNone};
ghost use Rattle.std.specs.Option.{option_copied};

use crate::merge::{count_entries, next_stamped};
use crate::{Call, Reply};
use sfs_base::{CoreId, Stamp};
use std::alloc::Global;
use std::marker::Model;

/// One call of the history: its place, who called, what was called and what was answered.
#[derive(Drop)]
pub struct Entry {
    pub stamp: Stamp,
    pub core: CoreId,
    pub call: Call,
    pub reply: Reply,
    /// The disk's count of calls when an fsync that was answered Ok was on the disk; None for any other call.
    pub ack: Option<u64>,
}

/// Of how many lists a cursor keeps the places: one for each core that may be.
const MOST_PLACES: usize = 256;

/// A place in a history: contracts see how many entries stand before it.
#[derive(Drop)]
pub struct Cursor {
    place: u64,
    // Of each list, how many entries were read.
    places: [usize; MOST_PLACES],
}

impl Model for Cursor {
    ghost use Rattle.std.specs.Prelude.{ℕ};

    ghost Value = { ℕ };

    ghost view = { λ cursor. cursor.place };
}

// How the entries are kept: in one list as they come, or in several that are read by stamps.
#[derive(Drop)]
enum Kept {
    One { entries: Vec<Entry> },
    Parts { parts: Vec<Vec<Entry>> },
}

/// The calls of a run: contracts see the list of their entries in stamp order. It may keep one list
/// for each core, and a cursor reads the lists in the order of the stamps.
#[derive(Drop)]
pub struct History {
    kept: Kept,
}

impl Model for History {
    ghost use Rattle.std.specs.Prelude.{List};
    ghost use Rattle.tree_laws.specs.declared.history.Entry.{Entry};
    ghost use Rattle.tree_laws.specs.Kept.{kept_entries, IsWhole};

    ghost Value = { List Entry };

    ghost view = { λ history. kept_entries history.kept };

    ghost invariant = { λ history. IsWhole history.kept };
}

impl History {
    ghost use Rattle.tree_laws.specs.Merged.{entries_in, by_stamps, EachOnce};

    /// No calls. It takes no memory.
    pub fn new(alloc: Global) -> History
        ensures { result ≡ [] }
    {
        History {
            kept: Kept::One {
                entries: Vec::new(alloc),
            },
        }
    }

    /// The history of these entries. It takes no memory.
    pub fn from_entries(entries: Vec<Entry>) -> History
        ensures { result ≡ entries.items }
    {
        History {
            kept: Kept::One { entries },
        }
    }

    /// The history of these lists of entries, one for each core, say. Together they have each stamp
    /// below the number of entries once. It takes no memory.
    pub fn from_parts(parts: Vec<Vec<Entry>>) -> History
        requires { EachOnce (entries_in parts.items) }
        ensures { result ≡ by_stamps (entries_in parts.items) }
    {
        History {
            kept: Kept::Parts { parts },
        }
    }

    /// How many calls there are.
    pub fn len(&self) -> u64
        ensures { result ≡ length self.now }
    {
        match &self.kept {
            Kept::One { entries } => entries.len() as u64,
            Kept::Parts { parts } => count_entries(parts),
        }
    }

    /// Whether there are no calls.
    pub fn is_empty(&self) -> bool
        ensures { result ≡ (length self.now == 0) }
    {
        self.len() == 0
    }

    /// The place before the first entry.
    pub fn first(&self) -> Cursor
        ensures { result ≡ 0 }
    {
        Cursor {
            place: 0,
            places: [0; MOST_PLACES],
        }
    }

    /// The entry at a place, which moves on by one; None, and the place stays, exactly after the last.
    pub fn next(&self, cursor: &mut Cursor) -> Option<&Entry>
        ensures entry { option_copied result ≡ slice_get self.now cursor.old }
        ensures moves { OnSome result (cursor.new ≡ cursor.old + 1) }
        ensures stays { IfNone result (cursor.new ≡ cursor.old) }
    {
        let entry = self.entry_at(cursor)?;
        cursor.place += 1;
        Some(entry)
    }

    // The entry at a place, which stays.
    fn entry_at(&self, cursor: &mut Cursor) -> Option<&Entry>
        ensures entry { option_copied result ≡ slice_get self.now cursor.old }
        ensures stays { cursor.new ≡ cursor.old }
        ensures small { OnSome result (cursor.old + 1 < 2 ^ 64) }
    {
        match &self.kept {
            Kept::One { entries } => entries.get(cursor.place as usize),
            Kept::Parts { parts } => next_stamped(parts, &mut cursor.places, cursor.place),
        }
    }
}
