// The past of the calls is kept beside them. Where it is missing it is made anew, so a call that was refused memory may lose it and
// leaves the story as it was.
ghost use Rattle.std.specs.Prelude.{◌≡◌, ◌<◌, ℕ, List, length, IfOk, OnOk, OnErr};
ghost use Rattle.sfs_base.specs.declared.numbers.CoreId.{CoreId};
ghost use Rattle.tree_laws.specs.declared.history.Entry.{Entry};
ghost use Rattle.tree_laws.specs.History.{IsLegal, flushes};
ghost use Rattle.tree_laws.specs.Sound.{IsSound};
ghost use Rattle.tree_laws.specs.Step.{IsReadable};
ghost use Rattle.tree_laws.specs.Tree.{names_of};
ghost use Rattle.cut_laws.specs.Cut.{tree_at_cut};
ghost use Rattle.flush_core.specs.Grows.{Grows};
ghost use Rattle.flush_core.specs.Past.{IsPast};

use crate::cut::Cut;
use crate::named::rows_of;
use crate::past::Past;
use crate::rules::{Rule, broken_rule};
use sfs_base::{CoreId, NoMemory, NodeId, Stamp};
use sfs_tree::Tree;
use std::alloc::Global;
use std::marker::Model;
use tree_laws::{Call, Entry, NameMap, Reply};

/// A first tree and a legal history from it, as the definitions of cuts speak of them. It is a plain
/// program to compare others with: what it tells of a cut goes over all calls.
#[derive(Drop)]
pub struct Story {
    alloc: Global,
    first: Tree,
    entries: Vec<Entry>,
    // None where it has to be made anew.
    past: Option<Past>,
}

impl Model for Story {
    ghost use Rattle.std.specs.Coded.{coded_list};
    ghost use Rattle.tree_laws.specs.contracts.history.Entry.{the_row};
    ghost use Rattle.flush_core.specs.Story.{StoryState, story_code, IsStanding};

    ghost Value = { StoryState };

    ghost coded = { story_code (coded_list the_row.coded) };

    ghost view = { λ s. record { first = s.first; history = s.entries.items } };

    ghost invariant = { λ s. IsStanding s.first s.entries.items s.past };
}

impl Story {
    ghost use Rattle.tree_laws.specs.Verdict.{verdict};
    ghost use Rattle.flush_core.specs.Broken.{FindsBroken};
    ghost use Rattle.flush_core.specs.Story.{story_of, end_of, with_call};

    /// The story without calls, from a sound tree. It takes no memory.
    pub fn new(alloc: Global, first: Tree) -> Story
        requires { IsSound first }
        ensures { result ≡ story_of first }
    {
        Story {
            alloc,
            first,
            entries: Vec::new(alloc),
            past: None,
        }
    }

    /// Makes a core's call as the next one, and gives its reply, which is that of the table; an fsync of
    /// a live node is answered Ok. The core is one of the first tree's, and a read asks for at most
    /// 65,536 bytes. Want of memory leaves the story as it was.
    pub fn add(&mut self, core: CoreId, call: &Call) -> Result<Reply, NoMemory>
        requires core { core.0 < length self.old.first.made }
        requires readable { IsReadable call.now }
        ensures reply { IfOk result (λ reply. reply ≡ (verdict (end_of self.old) core.0 call.now).reply) }
        ensures ok { OnOk result (self.new ≡ with_call self.old core call.now) }
        ensures err { OnErr result (self.new ≡ self.old) }
    {
        let mut past = self.take_past()?;
        let entry = joined(self.alloc, &mut past, self.len(), core, call)?;
        let reply = entry.reply.copy()?;
        self.join(entry, past)?;
        Ok(reply)
    }

    /// The rows of a directory in the tree at a cut. It takes time in proportion to the number of
    /// changes, and makes all calls anew where their past is not kept.
    pub fn rows_at(&self, cut: &Cut, directory: NodeId) -> Result<NameMap, NoMemory>
        ensures { IfOk result (λ names. names ≡ names_of directory.0 (tree_at_cut self.now.first self.now.history cut.now).rows) }
    {
        match &self.past {
            Some(past) => rows_in(&self.first, past, cut, directory),
            None => {
                let past = replayed(self.alloc, &self.first, &self.entries)?;
                rows_in(&self.first, &past, cut, directory)
            }
        }
    }

    /// The first rule that a cut breaks, or None where it is closed. It takes time in proportion to the
    /// square of the number of changes, times that of the directories above one, and makes all calls
    /// anew where their past is not kept.
    pub fn broken_rule(&self, cut: &Cut) -> Result<Option<Rule>, NoMemory>
        ensures { IfOk result (λ broken. FindsBroken self.now.first self.now.history cut.now broken) }
    {
        match &self.past {
            Some(past) => Ok(broken_rule(past, cut)),
            None => {
                let past = replayed(self.alloc, &self.first, &self.entries)?;
                Ok(broken_rule(&past, cut))
            }
        }
    }
}

impl Story {
    ghost use Rattle.tree_laws.specs.History.{MayCome};
    ghost use Rattle.flush_core.specs.Story.{end_of, with_entry, IsReadyPast};

    // How many calls there are.
    pub(crate) fn len(&self) -> u64
        ensures { result ≡ length self.now.history }
    {
        self.entries.len() as u64
    }

    // The first tree.
    pub(crate) fn first(&self) -> &Tree
        ensures { result.now ≡ self.now.first }
    {
        &self.first
    }

    // The past of the calls, which is not kept any more.
    pub(crate) fn take_past(&mut self) -> Result<Past, NoMemory>
        ensures past { IfOk result (λ past. IsReadyPast self.old.first self.old.history past) }
        ensures same { self.new ≡ self.old }
    {
        match self.past.take() {
            Some(past) => Ok(past),
            None => replayed(self.alloc, &self.first, &self.entries),
        }
    }

    // Keeps the past of the calls again.
    pub(crate) fn keep_past(&mut self, past: Past)
        requires { IsReadyPast self.old.first self.old.history past }
        ensures { self.new ≡ self.old }
    {
        self.past = Some(past);
    }

    // Puts an entry behind the others, with the past that it makes.
    pub(crate) fn join(&mut self, entry: Entry, past: Past) -> Result<(), NoMemory>
        requires may { MayCome (end_of self.old) (length self.old.history) entry }
        requires readable { IsReadable entry.call }
        requires past { IsReadyPast self.old.first (with_entry self.old entry).history past }
        ensures ok { OnOk result (self.new ≡ with_entry self.old entry) }
        ensures err { OnErr result (self.new ≡ self.old) }
    {
        self.entries.push(entry)?;
        self.past = Some(past);
        Ok(())
    }
}

ghost use Rattle.flush_core.specs.Story.{ack_of, answered_entry, AreReadable, IsReadyPast};

// The past of some calls, made anew.
fn replayed(alloc: Global, first: &Tree, entries: &[Entry]) -> Result<Past, NoMemory>
    requires sound { IsSound first.now }
    requires legal { IsLegal first.now entries.now }
    requires readable { AreReadable entries.now }
    ensures { IfOk result (λ past. IsReadyPast first.now entries.now past) }
{
    let mut past = Past::new(alloc, first)?;
    for entry in entries {
        past.add(alloc, entry)?;
    }
    Ok(past)
}

// The entry of a call at this stamp, which joins the past.
fn joined(
    alloc: Global,
    past: &mut Past,
    stamp: u64,
    core: CoreId,
    call: &Call,
) -> Result<Entry, NoMemory>
    requires core { core.0 < length past.old.tree.made }
    requires sound { IsSound past.old.tree }
    requires readable { IsReadable call.now }
    ensures entry { IfOk result (λ entry. entry ≡ answered_entry past.old.tree stamp core call.now) }
    ensures grows { OnOk result (Grows past.old (answered_entry past.old.tree stamp core call.now) past.new) }
{
    let ack = ack_of(&past.tree, call);
    let mut entry = Entry {
        stamp: Stamp(stamp),
        core,
        call: call.copy()?,
        reply: Reply::Ok,
        ack,
    };
    entry.reply = past.add(alloc, &entry)?;
    Ok(entry)
}

// When a call is acknowledged.
fn ack_of(tree: &Tree, call: &Call) -> Option<u64>
    ensures { result ≡ ack_of tree.now call.now }
{
    if flushes(tree, call) { Some(0) } else { None }
}

// Whether a call is an fsync of a live node.
pub(crate) fn flushes(tree: &Tree, call: &Call) -> bool
    ensures { result ≡ flushes tree.now call.now }
{
    match call {
        Call::Fsync { node } => tree.is_alive(*node),
        _ => false,
    }
}

// The rows of a directory in the tree at a cut.
fn rows_in(first: &Tree, past: &Past, cut: &Cut, directory: NodeId) -> Result<NameMap, NoMemory>
    ensures { IfOk result (λ names. (history : List Entry) → IsPast first.now history past.now
        → names ≡ names_of directory.0 (tree_at_cut first.now history cut.now).rows) }
{
    rows_of(first, &past.changes, directory.0, cut.get(directory.0))
}
