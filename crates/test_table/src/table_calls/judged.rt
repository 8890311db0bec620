// Whether a history is the one that was asked for.
ghost use Rattle.std.specs.Prelude.{◌≡◌, ◌<◌, length};
ghost use Rattle.tree_laws.specs.Sound.{IsSound};

use crate::table_calls::asked::{Asked, is_asked};
use crate::table_calls::drawn::{Draw, draws};
use sfs_base::{CoreId, NoMemory};
use sfs_tree::Tree;
use std::alloc::Global;
use tree_laws::{Call, Code, Entry, History, Reply};

// How many calls of each kind a history has that were done, and how many that were refused.
#[derive(Drop)]
pub(crate) struct Met {
    looks: u64,
    makes: u64,
    links: u64,
    unlinks: u64,
    rmdirs: u64,
    renames: u64,
    writes: u64,
    reads: u64,
    truncs: u64,
    stats: u64,
    lists: u64,
    others: u64,
    refused: u64,
}

impl Met {
    fn new() -> Met {
        Met {
            looks: 0,
            makes: 0,
            links: 0,
            unlinks: 0,
            rmdirs: 0,
            renames: 0,
            writes: 0,
            reads: 0,
            truncs: 0,
            stats: 0,
            lists: 0,
            others: 0,
            refused: 0,
        }
    }

    // How many there are of a call's kind.
    fn of(&mut self, call: &Call) -> &mut u64 {
        match call {
            Call::Look { .. } => &mut self.looks,
            Call::Make { .. } => &mut self.makes,
            Call::Link { .. } => &mut self.links,
            Call::Unlink { .. } => &mut self.unlinks,
            Call::Rmdir { .. } => &mut self.rmdirs,
            Call::Rename { .. } => &mut self.renames,
            Call::Write { .. } => &mut self.writes,
            Call::Read { .. } => &mut self.reads,
            Call::Trunc { .. } => &mut self.truncs,
            Call::Stat { .. } => &mut self.stats,
            Call::List { .. } => &mut self.lists,
            Call::Fsync { .. } => &mut self.others,
        }
    }

    fn count(&mut self, entry: &Entry) {
        let count = match &entry.reply {
            Reply::Error { .. } => &mut self.refused,
            _ => self.of(&entry.call),
        };
        *count = count.saturating_add(1);
    }

    // Whether of each kind but one, which is asked of no core, at least so many were done, and so many were refused.
    pub(crate) fn has_each(&self, least: u64) -> bool {
        let changes = self
            .makes
            .min(self.links)
            .min(self.unlinks)
            .min(self.rmdirs)
            .min(self.renames);
        let files = self.writes.min(self.reads).min(self.truncs);
        let sights = self.looks.min(self.stats).min(self.lists);
        changes.min(files).min(sights).min(self.refused) >= least && self.others == 0
    }
}

// Whether a reply is an error with this code, or none.
pub(crate) fn is_code(reply: &Reply, code: Option<Code>) -> bool {
    match (reply, code) {
        (Reply::Error { code: own }, Some(code)) => *own == code,
        (Reply::Error { .. }, None) => false,
        (_, code) => code.is_none(),
    }
}

// Whether an entry is the call that was asked, with the reply of a plain tree to it.
pub(crate) fn is_due(
    tree: &mut Tree,
    entry: &Entry,
    core: CoreId,
    asked: Asked,
) -> Result<bool, NoMemory>
    requires sound { IsSound tree.old }
    requires known { core.0 < length tree.old.made }
    ensures sound { IsSound tree.new }
    ensures cores { length tree.new.made ≡ length tree.old.made }
{
    if !is_asked(&entry.call, asked) {
        return Ok(false);
    }
    Ok(tree.step(core, &entry.call)?.equals(&entry.reply))
}

// Whether an entry stands at its stamp, and is the next call of its core, with the reply that is due.
fn is_next(tree: &mut Tree, draws: &mut [Draw], entry: &Entry, stamp: u64) -> Result<bool, NoMemory>
    requires sound { IsSound tree.old }
    requires known { length draws.old ≡ length tree.old.made }
    ensures sound { IsSound tree.new }
    ensures cores { length tree.new.made ≡ length tree.old.made }
    ensures draws { length draws.new ≡ length draws.old }
{
    let core = entry.core.0 as usize;
    if entry.stamp.0 != stamp || core >= draws.len() {
        return Ok(false);
    }
    let asked = draws[core].asked();
    draws[core].note(&entry.reply);
    is_due(tree, entry, entry.core, asked)
}

// Whether each core has drawn so many calls.
fn have_drawn(draws: &[Draw], each: u32) -> bool {
    for draw in draws {
        if draw.calls != each as u64 {
            return false;
        }
    }
    true
}

// Whether each entry stands at its stamp, is the next of its core's drawn calls, of which each core has so many, and has the reply that a
// plain tree gives there. Says how many calls of each kind there are, if so.
pub(crate) fn judged(
    alloc: Global,
    history: &History,
    mut tree: Tree,
    cores: u8,
    each: u32,
) -> Result<Option<Met>, NoMemory>
    requires sound { IsSound tree }
    requires cores { length tree.made ≡ cores }
{
    let mut draws = draws(alloc, cores)?;
    let mut met = Met::new();
    let mut cursor = history.first();
    for stamp in 0..history.len() {
        let Some(entry) = history.next(&mut cursor) else {
            return Ok(None);
        };
        if !is_next(&mut tree, &mut draws, entry, stamp)? {
            return Ok(None);
        }
        met.count(entry);
    }
    if have_drawn(&draws, each) {
        Ok(Some(met))
    } else {
        Ok(None)
    }
}

// Whether each entry stands at its stamp, is the next of these calls, which are as many, and has the reply that a plain tree gives there.
pub(crate) fn is_listed(
    history: &History,
    mut tree: Tree,
    listed: &[(Asked, Option<Code>)],
) -> Result<bool, NoMemory>
    requires sound { IsSound tree }
    requires cores { 0 < length tree.made }
{
    let mut cursor = history.first();
    for (place, (asked, _)) in listed.iter().enumerate() {
        let Some(entry) = history.next(&mut cursor) else {
            return Ok(false);
        };
        let here = entry.stamp.0 == place as u64 && entry.core == CoreId(0);
        if !here || !is_due(&mut tree, entry, CoreId(0), *asked)? {
            return Ok(false);
        }
    }
    Ok(history.next(&mut cursor).is_none())
}
