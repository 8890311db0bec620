// A core's log lies in a map of logs by directory; beside it, how many of their changes name each node. Room for a change in a log is
// room for its naming too: a change is put in without memory.
ghost use Rattle.std.specs.Prelude.{◌≡◌, ◌+◌, ◌-◌, ◌<◌, ◌≤◌, ◌^◌, ℕ, [], slice_get, length, filter, All, IfOk, OnOk, OnErr, Some, IsSome};
ghost use Rattle.std.specs.BTreeMap.{get, insert_entry, Updates, IsOrdered};
ghost use Rattle.std.specs.HashMap.{spare};
ghost use Rattle.std.specs.Option.{option_copied};
ghost use Rattle.std.specs.Ordering.{nat_cmp};
ghost use Rattle.tree_laws.specs.Logged.{is_logged_in};
ghost use Rattle.mem_cells.specs.Log.{log_place, IsInOrder};
ghost use Rattle.mem_cells.specs.Part.{log_of, changes_kept, mark_kept, room_kept, IsSamePart, IsAddedTo, IsTrimmedOrBlank, PutsChange, StandBehind, IsNextDirectory, bound_after, AscendByDirectory};
ghost use Rattle.mem_cells.specs.Named.{namings_of, namings_in, namings_kept, changes_count, naming_count, IsReplaced, AreEqualLogs, TrimsLog, pushed_log, roomy_log, trimmed_log};

use crate::log::DirectoryLog;
use crate::namings::{add_naming, take_naming};
use sfs_base::{NoMemory, NodeId, Stamp};
use std::alloc::Global;
use std::collections::{BTreeMap, HashMap};
use std::marker::Model;
use std::ops::Bound;
use tree_laws::{Change, Changes};

/// How many changes a part keeps and has room for at most.
const MOST: u64 = 1 << 63;

/// One core's changes of directories, those of each in the order of their stamps, with the mark below
/// which they were trimmed, and how many entries the core has. Contracts see for each directory its
/// changes, its mark, and for how many more changes there is room.
#[derive(Drop)]
pub struct LogPart {
    logs: BTreeMap<u32, DirectoryLog>,
    namings: HashMap<u32, u64>,
    kept: u64,
    rooms: u64,
    entries: u64,
    alloc: Global,
    // The logs of the cores lie side by side in memory, and each call that changes something writes to its own. So they lie a line of
    // memory further apart.
    apart: [u64; 8],
}

impl Model for LogPart {
    ghost use Rattle.std.specs.HashMap.{spare};
    ghost use Rattle.mem_cells.specs.Part.{CoreLog};
    ghost use Rattle.mem_cells.specs.Named.{CountsNamings, naming_count};

    ghost Value = { CoreLog };

    ghost view = { λ p. record { logs = p.logs.entries; entries = p.entries } };

    ghost invariant = { λ p. CountsNamings p.logs.entries (naming_count p.namings) (spare p.namings) p.kept p.rooms };
}

impl LogPart {
    /// No changes, and no entries. It takes no memory.
    pub fn new(alloc: Global) -> Self
        ensures { result ≡ record { logs = []; entries = 0 } }
    {
        LogPart {
            logs: BTreeMap::new(alloc),
            namings: HashMap::new(alloc),
            kept: 0,
            rooms: 0,
            entries: 0,
            alloc,
            apart: [0; 8],
        }
    }

    /// How many entries the core has.
    pub fn entries(&self) -> u64
        ensures { result ≡ self.now.entries }
    {
        self.entries
    }

    /// The mark below which a directory's changes were trimmed, 0 where they never were.
    pub fn mark(&self, dir: NodeId) -> Stamp
        ensures { result.0 ≡ mark_kept self.now dir.0 }
    {
        match self.logs.get(&dir.0) {
            Some(log) => log.mark(),
            None => Stamp(0),
        }
    }

    /// A directory's change at this place, the oldest at 0. `None` is past the last.
    pub fn get(&self, dir: NodeId, place: u64) -> Option<&Change>
        ensures value { option_copied result ≡ slice_get (changes_kept self.now dir.0) place }
        ensures ordered { IsInOrder (changes_kept self.now dir.0) }
    {
        match self.logs.get(&dir.0) {
            Some(log) => log.get(place),
            None => None,
        }
    }

    /// The next directory after one that has changes here, and the first where there is none before.
    pub fn next_dir(&self, after: Option<NodeId>) -> Option<NodeId>
        ensures { IsNextDirectory self.now after result }
    {
        for (dir, log) in self.logs.range((first_after(after), Bound::Unbounded)) {
            if !log.is_empty() {
                return Some(NodeId(*dir));
            }
        }
        None
    }

    /// How many of the changes name a node, as the child of their row.
    pub fn namings(&self, node: NodeId) -> u64
        ensures count { result ≡ namings_kept self.now node.0 }
        ensures ascending { AscendByDirectory self.now.logs }
    {
        self.namings.get(&node.0).copied().unwrap_or(0)
    }

    /// Makes room for `count` more changes of a directory at least.
    pub fn reserve(&mut self, dir: NodeId, count: u32) -> Result<(), NoMemory>
        ensures room { OnOk result (count ≤ room_kept self.new dir.0) }
        ensures never_lowers { (other : ℕ) → room_kept self.old other ≤ room_kept self.new other }
        ensures same { IsSamePart self.old self.new }
    {
        let room = self.room_for(dir);
        let more = (count as u64).saturating_sub(room);
        if more > MOST - self.kept - self.rooms {
            return Err(NoMemory);
        }
        self.namings.reserve((self.rooms + more) as usize)?;
        make_place(&mut self.logs, self.alloc, dir)?;
        reserve_at(&mut self.logs, dir, count)?;
        self.rooms += more;
        Ok(())
    }

    // For how many more changes of a directory there is room.
    fn room_for(&self, dir: NodeId) -> u64
        ensures { result ≡ room_kept self.now dir.0 }
    {
        match self.logs.get(&dir.0) {
            Some(log) => log.room(),
            None => 0,
        }
    }

    /// Puts the changes of the core's next entry behind those that it has, into room that was reserved.
    /// For a directory that they change there has to be room for as many; they stand in order, and none
    /// of them comes before one that its directory has. It takes no memory.
    pub fn add(&mut self, entry: Changes)
        requires room { (dir : ℕ) → length (filter (is_logged_in dir) entry.items) ≤ room_kept self.old dir }
        requires order { IsInOrder entry.items }
        requires behind { StandBehind entry.items (changes_kept self.old) }
        requires entries { self.old.entries < 2 ^ 64 - 1 }
        ensures { IsAddedTo self.old entry.items self.new }
    {
        for change in entry.into_vec() {
            self.push(change);
        }
        self.entries += 1;
    }

    // Puts a change behind those of its directory.
    fn push(&mut self, change: Change)
        requires room { 0 < room_kept self.old change.dir.0 }
        requires last { All (λ other. log_place other ≤ log_place change) (changes_kept self.old change.dir.0) }
        ensures puts { PutsChange self.old.logs change self.new.logs }
        ensures entries { self.new.entries ≡ self.old.entries }
    {
        add_naming(&mut self.namings, change.child);
        push_at(&mut self.logs, change);
        self.kept += 1;
        self.rooms -= 1;
    }

    /// Drops the changes of a directory below a stamp, and makes its mark this stamp at least; a directory
    /// without a log has neither. It takes no memory, and time in proportion to the changes that it drops.
    pub fn trim(&mut self, dir: NodeId, below: Stamp)
        ensures { IsTrimmedOrBlank self.old dir.0 below.0 self.new }
    {
        let dropped = trim_at(&mut self.logs, &mut self.namings, dir, below);
        self.kept -= dropped;
    }

    /// The changes of a directory, in their order.
    pub fn copy_of(&self, alloc: Global, dir: NodeId) -> Result<Changes, NoMemory>
        ensures { IfOk result (λ changes. changes.items ≡ changes_kept self.now dir.0) }
    {
        match self.logs.get(&dir.0) {
            Some(log) => log.copy_changes(alloc),
            None => Ok(Changes::new(alloc)),
        }
    }

    /// An equal part.
    pub fn copy(&self) -> Result<LogPart, NoMemory>
        ensures { IfOk result (λ part. part ≡ self.now) }
    {
        let mut namings = self.namings.clone()?;
        namings.reserve(self.rooms as usize)?;
        Ok(LogPart {
            logs: copy_logs(&self.logs, self.alloc)?,
            namings,
            kept: self.kept,
            rooms: self.rooms,
            entries: self.entries,
            alloc: self.alloc,
            apart: [0; 8],
        })
    }
}

// Where the directories after one begin.
fn first_after(dir: Option<NodeId>) -> Bound<u32>
    ensures { result ≡ bound_after dir }
{
    match dir {
        Some(dir) => Bound::Excluded(dir.0),
        None => Bound::Unbounded,
    }
}

// Gives a directory a blank log where it has none.
fn make_place(
    logs: &mut BTreeMap<u32, DirectoryLog>,
    alloc: Global,
    dir: NodeId,
) -> Result<(), NoMemory>
    ensures ok { OnOk result (IsSome (get nat_cmp logs.new dir.0)) }
    ensures same { AreEqualLogs logs.old.entries logs.new.entries }
{
    if !logs.contains_key(&dir.0) {
        put_log(logs, dir.0, DirectoryLog::new(alloc))?;
    }
    Ok(())
}

// Makes room in the log of a directory.
fn reserve_at(
    logs: &mut BTreeMap<u32, DirectoryLog>,
    dir: NodeId,
    count: u32,
) -> Result<(), NoMemory>
    requires { IsSome (get nat_cmp logs.old dir.0) }
    ensures ok { OnOk result (IsReplaced logs.old.entries dir.0 (log_of logs.old.entries dir.0)
        (roomy_log (log_of logs.old.entries dir.0) count) logs.new.entries) }
    ensures err { OnErr result (IsReplaced logs.old.entries dir.0 (log_of logs.old.entries dir.0)
        (log_of logs.old.entries dir.0) logs.new.entries) }
{
    match logs.get_mut(&dir.0) {
        Some(log) => log.reserve(count),
        None => unreachable!(),
    }
}

// Puts a change behind those of its directory.
fn push_at(logs: &mut BTreeMap<u32, DirectoryLog>, change: Change)
    requires room { 0 < (log_of logs.old.entries change.dir.0).room }
    requires last { All (λ other. log_place other ≤ log_place change) (log_of logs.old.entries change.dir.0).changes }
    ensures { IsReplaced logs.old.entries change.dir.0 (log_of logs.old.entries change.dir.0)
        (pushed_log (log_of logs.old.entries change.dir.0) change) logs.new.entries }
{
    match logs.get_mut(&change.dir.0) {
        Some(log) => log.push(change),
        None => unreachable!(),
    }
}

// Trims the log of a directory, where there is one, and says how many changes were dropped.
fn trim_at(
    logs: &mut BTreeMap<u32, DirectoryLog>,
    namings: &mut HashMap<u32, u64>,
    dir: NodeId,
    below: Stamp,
) -> u64
    requires namings { (node : ℕ) → naming_count namings.old node ≡ namings_in logs.old.entries node }
    requires few { changes_count logs.old.entries ≤ 2 ^ 63 }
    ensures log { TrimsLog logs.old.entries dir.0 below.0 logs.new.entries }
    ensures namings { (node : ℕ) → naming_count namings.new node ≡ namings_in logs.new.entries node }
    ensures room { spare namings.old ≤ spare namings.new }
    ensures dropped { result + changes_count logs.new.entries ≡ changes_count logs.old.entries }
{
    match logs.get_mut(&dir.0) {
        Some(log) => trim_log(log, namings, below),
        None => 0,
    }
}

// Trims a log, and says how many changes were dropped.
fn trim_log(log: &mut DirectoryLog, namings: &mut HashMap<u32, u64>, below: Stamp) -> u64
    requires namings { (node : ℕ) → namings_of log.old.changes node ≤ naming_count namings.old node }
    requires few { length log.old.changes ≤ 2 ^ 63 }
    ensures log { log.new ≡ trimmed_log log.old below.0 }
    ensures namings { (node : ℕ) → naming_count namings.new node + namings_of log.old.changes node
        ≡ naming_count namings.old node + namings_of log.new.changes node }
    ensures room { spare namings.old ≤ spare namings.new }
    ensures dropped { result + length log.new.changes ≡ length log.old.changes }
{
    let mut dropped = 0;
    while let Some(change) = log.take_below(below) {
        take_naming(namings, change.child);
        dropped += 1;
    }
    log.raise(below);
    dropped
}

// Equal logs.
fn copy_logs(
    logs: &BTreeMap<u32, DirectoryLog>,
    alloc: Global,
) -> Result<BTreeMap<u32, DirectoryLog>, NoMemory>
    ensures { IfOk result (λ copies. copies.entries ≡ logs.now.entries) }
{
    let mut copies = BTreeMap::new(alloc);
    for (dir, log) in logs {
        put_log(&mut copies, *dir, log.copy()?)?;
    }
    Ok(copies)
}

// Puts a log in as that of a directory.
fn put_log(
    logs: &mut BTreeMap<u32, DirectoryLog>,
    dir: u32,
    log: DirectoryLog,
) -> Result<(), NoMemory>
    ensures ok { OnOk result (Updates nat_cmp logs.old logs.new dir (Some log)) }
    ensures entries { OnOk result (logs.new.entries ≡ insert_entry nat_cmp logs.old.entries dir log) }
    ensures err { OnErr result (logs.new.entries ≡ logs.old.entries) }
    ensures ordered { IsOrdered nat_cmp logs.old × IsOrdered nat_cmp logs.new }
{
    logs.insert(dir, log)?;
    Ok(())
}
