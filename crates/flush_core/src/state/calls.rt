// A call joins the history where its answer is one that it may have.
ghost use Rattle.std.specs.Prelude.{◌≡◌, ◌<◌, ◌↔◌, true, false, length, IfOk};
ghost use Rattle.tree_laws.specs.Step.{IsReadable};
ghost use Rattle.tree_laws.specs.History.{IsFsyncReply, is_ok_reply};
ghost use Rattle.cut_laws.specs.declared.event.Event.TheVariants as event;

use super::State;
use crate::story::flushes;
use cut_laws::Refused;
use sfs_base::{NoMemory, Stamp};
use tree_laws::{Entry, Reply};

impl State {
    ghost use Rattle.flush_core.specs.State.{Answers};

    // Adds a call.
    pub(super) fn call(&mut self, entry: &Entry) -> Result<(), Refused>
        requires running { self.old.crashed ≡ false }
        requires core { entry.now.core.0 < length self.old.first.made }
        requires readable { IsReadable entry.now.call }
        ensures { Answers self.old (event.Call entry.now) result self.new }
    {
        let count = self.story.len();
        if entry.stamp.0 != count {
            return Err(Refused::NotNext { want: Stamp(count) });
        }
        let mut past = self.story.take_past()?;
        let is_flush = flushes(&past.tree, &entry.call);
        let reply = past.add(self.alloc, entry)?;
        if !is_answer(is_flush, &reply, entry) {
            return Err(Refused::NotLegal { reply });
        }
        self.story.join(copy_of(entry)?, past)?;
        Ok(())
    }
}

ghost use Rattle.flush_core.specs.State.{HasDueAnswer};

// An equal entry.
fn copy_of(entry: &Entry) -> Result<Entry, NoMemory>
    ensures { IfOk result (λ copy. copy ≡ entry.now) }
{
    Ok(Entry {
        stamp: entry.stamp,
        core: entry.core,
        call: entry.call.copy()?,
        reply: entry.reply.copy()?,
        ack: entry.ack,
    })
}

// Whether an entry's answer and moment of acknowledgement are such as it may have, where this reply
// is due and the call is an fsync of a live node or not.
fn is_answer(is_flush: bool, due: &Reply, entry: &Entry) -> bool
    ensures { (result ≡ true) ↔ HasDueAnswer is_flush due.now entry.now }
{
    let replied = if is_flush {
        is_fsync_reply(&entry.reply)
    } else {
        entry.reply.equals(due)
    };
    replied && entry.ack.is_some() == (is_flush && is_ok(&entry.reply))
}

// Whether an fsync of a live node may have this reply.
fn is_fsync_reply(reply: &Reply) -> bool
    ensures { (result ≡ true) ↔ IsFsyncReply reply.now }
{
    match reply {
        Reply::Ok => true,
        Reply::DiskFailed => true,
        Reply::NoSpace { .. } => true,
        Reply::Stopped { .. } => true,
        Reply::NoMemory => true,
        _ => false,
    }
}

// Whether a reply is Ok.
fn is_ok(reply: &Reply) -> bool
    ensures { result ≡ is_ok_reply reply.now }
{
    match reply {
        Reply::Ok => true,
        _ => false,
    }
}
