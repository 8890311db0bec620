// One line of a text.
ghost use Rattle.std.specs.Prelude.{◌≡◌, ◌<◌, ◌∷◌, [], length, option_map, IfOk, OnOk};
ghost use Rattle.std.specs.List.{before_first};
ghost use Rattle.tree_laws.specs.Sound.{IsSound};
ghost use Rattle.tree_laws.specs.Step.{IsReadable};
ghost use Rattle.tree_laws.specs.Verdict.{tree_after_call};
ghost use Rattle.script.specs.Texts.{entry_text};
ghost use Rattle.history_check.specs.Reading.{is_line_end, line_core, line_call, line_flush_reply};
ghost use Rattle.history_check.specs.Steps.{core_below, line_reply, IsFollowed};

use crate::calls::spelled_call_in;
use crate::replies::flush_reply_in;
use crate::words::{Words, place_of};
use script::{number_up_to, text};
use sfs_base::{CoreId, NoMemory, Stamp};
use sfs_tree::Tree;
use std::alloc::Global;
use tree_laws::{Call, Entry, History, Reply};

// What stands behind the first line, where that is the line of an entry with this stamp that may come
// in the tree, which then goes on by this entry. None where it is not.
pub fn follow<'a>(
    alloc: Global,
    tree: &mut Tree,
    cores: u8,
    stamp: u32,
    text: &'a [u8],
) -> Result<Option<&'a [u8]>, NoMemory>
    requires sound { IsSound tree.old }
    requires cores { cores ≡ length tree.old.made }
    ensures line { IfOk result (λ left. IsFollowed tree.old stamp text.now tree.new (option_map (λ left. left.now) left)) }
    ensures sound { IsSound tree.new }
    ensures cores { OnOk result (length tree.new.made ≡ length tree.old.made) }
{
    let line = first_line(text);
    let Some(core) = core_of(line, cores) else {
        return Ok(None);
    };
    let Some(call) = line_call(alloc, line)? else {
        return Ok(None);
    };
    let Some(reply) = reply_of(tree, core, &call, line)? else {
        return Ok(None);
    };
    let entry = Entry {
        stamp: Stamp(u64::from(stamp)),
        core,
        call,
        reply,
        ack: None,
    };
    let due = text_of(alloc, entry)?;
    Ok(text.strip_prefix(due.as_slice()))
}

// The first line, without its end.
fn first_line(text: &[u8]) -> &[u8]
    ensures { result.now ≡ before_first is_line_end text.now }
{
    match place_of(text, b'\n') {
        Some(end) => &text[..end],
        None => text,
    }
}

// The core of a line, where it is one of so many.
fn core_of(line: &[u8], cores: u8) -> Option<CoreId>
    ensures { result ≡ core_below cores (line_core line.now) }
{
    let mut words = Words::new(line);
    let _ = words.next();
    let core = number_up_to(u64::from(u8::MAX), words.next())?;
    if core >= u64::from(cores) {
        return None;
    }
    Some(CoreId(core as u8))
}

// The call of a line.
fn line_call(alloc: Global, line: &[u8]) -> Result<Option<Call>, NoMemory>
    ensures { IfOk result (λ call. call ≡ line_call line.now) }
{
    let mut words = Words::new(line);
    let _ = words.next();
    let _ = words.next();
    spelled_call_in(alloc, &mut words)
}

// The reply that a line has to have: that of the tree, which goes on by the call; and for an fsync of a
// live node the one that stands there.
fn reply_of(
    tree: &mut Tree,
    core: CoreId,
    call: &Call,
    line: &[u8],
) -> Result<Option<Reply>, NoMemory>
    requires sound { IsSound tree.old }
    requires core { core.0 < length tree.old.made }
    requires readable { IsReadable call.now }
    ensures reply { IfOk result (λ reply. reply ≡ line_reply tree.old core.0 call.now line.now) }
    ensures tree { OnOk result (tree.new ≡ tree_after_call tree.old core.0 call.now) }
    ensures sound { IsSound tree.new }
{
    let due = tree.step(core, call)?;
    match (call, &due) {
        (Call::Fsync { .. }, Reply::Ok) => Ok(flush_reply_of(line)),
        _ => Ok(Some(due)),
    }
}

// The reply of an fsync's line.
fn flush_reply_of(line: &[u8]) -> Option<Reply>
    ensures { result ≡ line_flush_reply line.now }
{
    let mut words = Words::new(line);
    let _ = words.next();
    let _ = words.next();
    let _ = words.next();
    let _ = words.next();
    let _ = words.next();
    flush_reply_in(&mut words)
}

// The line of an entry.
fn text_of(alloc: Global, entry: Entry) -> Result<Vec<u8>, NoMemory>
    ensures { IfOk result (λ line. line.items ≡ entry_text entry) }
{
    let mut entries = Vec::new(alloc);
    entries.push(entry)?;
    text(alloc, &History::from_entries(entries))
}
