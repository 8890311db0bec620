// Whether a history is legal from a tree: each reply is the plain tree's, and each fsync of a live node has an answer that its disk allows.
ghost use Rattle.std.specs.Prelude.{◌≡◌, ◌<◌, ◌≤◌, true, length, IfOk, IfSome};
ghost use Rattle.tree_laws.specs.Step.{IsReadable};
ghost use Rattle.tree_laws.specs.Sound.{IsSound};

use crate::helpers::{got, holds};
use crate::runs::{copy_of, image};
use fmt_super::Layout;
use recovery::recover;
use sfs_base::{CoreId, NoMemory};
use sfs_dev::Memory;
use sfs_tree::Tree;
use std::alloc::Global;
use std::process::Abort;
use tree_laws::{Call, Entry, History, Reply};

/// What a disk may let an fsync of a live node answer besides Ok, with ample memory.
#[derive(Clone, Copy, PartialEq, Eq)]
pub(crate) enum Health {
    /// Nothing: it has ample room, and no device call fails.
    Well,
    /// That the disk failed, or had: it has ample room, and one device call fails.
    FailsOnce,
    /// That there is too little room: no device call fails.
    Crowded,
}

/// How many nodes the workers of a drawn script may make.
pub(crate) const NODES: u32 = 256;

/// How many cores the disks of drawn scripts have.
pub(crate) const CORES: u8 = 4;

/// An empty disk, and its tree, in which each core may make as many nodes.
#[derive(Drop)]
pub(crate) struct Base {
    pub image: Memory,
    pub first: Tree,
}

/// A disk with this layout, with its tree.
pub(crate) fn base_of(rt: &impl Abort, alloc: Global, layout: Layout) -> Base
    ensures sound { IsSound result.first }
    ensures cores { length result.first.made ≡ CORES }
{
    let image = image(rt, alloc, layout);
    let mut disk = copy_of(rt, alloc, &image);
    let report = got(rt, recover(alloc, &mut disk));
    holds(rt, report.layout.cores == CORES as u32);
    let mut first = report.tree;
    first.allow(NODES / CORES as u32);
    Base { image, first }
}

// Whether a disk may let an fsync of a live node be answered so.
fn may_answer(health: Health, given: &Reply) -> bool {
    match given {
        Reply::Ok => true,
        Reply::DiskFailed => health == Health::FailsOnce,
        Reply::Stopped { faults } => health == Health::FailsOnce && *faults == 1,
        Reply::NoSpace { need, free, .. } => health == Health::Crowded && free < need,
        _ => false,
    }
}

// Whether a reply may stand for the plain tree's.
fn may_stand(call: &Call, due: &Reply, given: &Reply, health: Health) -> bool {
    match (call, due) {
        (Call::Fsync { .. }, Reply::Ok) => may_answer(health, given),
        _ => given.equals(due),
    }
}

/// Whether an entry is an fsync that is answered Ok.
pub(crate) fn is_acknowledged(entry: &Entry) -> bool {
    matches!((&entry.call, &entry.reply), (Call::Fsync { .. }, Reply::Ok))
}

/// Whether a call asks for no more bytes than one may.
pub(crate) fn is_readable(call: &Call) -> bool
    ensures { result ≡ true → IsReadable call.now }
{
    match call {
        Call::Read { count, .. } => *count <= 65_536,
        _ => true,
    }
}

// Whether an entry has a reply that may stand for the plain tree's there.
fn has_due_reply(tree: &mut Tree, entry: &Entry, health: Health) -> Result<bool, NoMemory>
    requires sound { IsSound tree.old }
    requires known { entry.now.core.0 < length tree.old.made }
    requires readable { IsReadable entry.now.call }
    ensures sound { IsSound tree.new }
    ensures cores { length tree.new.made ≡ length tree.old.made }
{
    let due = tree.step(entry.core, &entry.call)?;
    Ok(may_stand(&entry.call, &due, &entry.reply, health))
}

// Whether an entry stands at its stamp, is one of the cores, and has a moment of at most so many device calls exactly where it is an acknowledgement.
fn is_well_formed(entry: &Entry, stamp: u64, calls: u64) -> bool
    ensures { result ≡ true → (entry.now.core.0 < CORES) × IsReadable entry.now.call }
{
    if entry.stamp.0 != stamp || entry.core.0 >= CORES || !is_readable(&entry.call) {
        return false;
    }
    match entry.ack {
        Some(moment) => is_acknowledged(entry) && moment <= calls,
        None => !is_acknowledged(entry),
    }
}

// Whether the moments of a core's acknowledgements do not fall, and once it was answered that the disk failed, or had, each later fsync of a live node is told so too.
fn keeps_order(history: &History, core: CoreId) -> bool {
    let mut cursor = history.first();
    let mut last = 0u64;
    let mut stopped = false;
    for _ in 0..history.len() {
        let Some(entry) = history.next(&mut cursor) else {
            return false;
        };
        if entry.core != core {
            continue;
        }
        match (&entry.reply, entry.ack) {
            (Reply::DiskFailed, _) if stopped => return false,
            (Reply::DiskFailed | Reply::Stopped { .. }, _) => stopped = true,
            (_, Some(moment)) if stopped || moment < last => return false,
            (_, Some(moment)) => last = moment,
            _ => {}
        }
    }
    true
}

// Whether this is so of each core.
fn all_keep_order(history: &History) -> bool {
    for core in 0..CORES {
        if !keeps_order(history, CoreId(core)) {
            return false;
        }
    }
    true
}

/// The tree after a legal history, on a disk of this health to which so many device calls were made. None where the history is not legal.
pub(crate) fn tree_after(
    rt: &impl Abort,
    history: &History,
    first: &Tree,
    health: Health,
    calls: u64,
) -> Option<Tree>
    requires sound { IsSound first.now }
    requires cores { length first.now.made ≡ CORES }
    ensures sound { IfSome result IsSound }
{
    let mut tree = got(rt, first.copy());
    let mut cursor = history.first();
    for stamp in 0..history.len() {
        let entry = history.next(&mut cursor)?;
        if !is_well_formed(entry, stamp, calls) {
            return None;
        }
        if !got(rt, has_due_reply(&mut tree, entry, health)) {
            return None;
        }
    }
    if history.next(&mut cursor).is_some() || !all_keep_order(history) {
        return None;
    }
    Some(tree)
}

/// How many fsyncs of a history were acknowledged, how many met the fault of the disk, and how many had too little room.
pub(crate) fn answers_in(history: &History) -> (u64, u64, u64) {
    let mut cursor = history.first();
    let mut acknowledged = 0u64;
    let mut failed = 0u64;
    let mut short = 0u64;
    for _ in 0..history.len() {
        let Some(entry) = history.next(&mut cursor) else {
            break;
        };
        match &entry.reply {
            Reply::DiskFailed => failed = failed.saturating_add(1),
            Reply::NoSpace { .. } => short = short.saturating_add(1),
            _ => {
                if is_acknowledged(entry) {
                    acknowledged = acknowledged.saturating_add(1);
                }
            }
        }
    }
    (acknowledged, failed, short)
}
