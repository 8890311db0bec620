// Whether a history is one of a script: each core's entries are its worker's calls, phase by phase, and each reply is the plain tree's.
ghost use Rattle.std.specs.Prelude.{◌≡◌, ◌<◌, true, length};
ghost use Rattle.tree_laws.specs.Step.{IsReadable};
ghost use Rattle.tree_laws.specs.Sound.{IsSound};

use crate::helpers::{got, holds};
use script::{Course, Phase, Script, text};
use sfs_base::{CoreId, NoMemory, Stamp};
use sfs_tree::Tree;
use std::alloc::Global;
use std::process::Abort;
use tree_laws::{Call, Entry, History, Reply};

// The text of a call.
fn call_text(rt: &impl Abort, alloc: Global, call: Call) -> Vec<u8> {
    let mut entries = Vec::new(alloc);
    got(
        rt,
        entries.push(Entry {
            stamp: Stamp(0),
            core: CoreId(0),
            call,
            reply: Reply::Ok,
            ack: None,
        }),
    );
    got(rt, text(alloc, &History::from_entries(entries)))
}

// Whether two calls are the same.
fn is_same_call(rt: &impl Abort, alloc: Global, one: &Call, other: &Call) -> bool {
    let one = call_text(rt, alloc, got(rt, one.copy()));
    let other = call_text(rt, alloc, got(rt, other.copy()));
    one.as_slice() == other.as_slice()
}

// Goes on to the next phase in which a core has a call, from its end in this one, or to the last phase.
fn go_on<'a>(
    rt: &impl Abort,
    phases: &'a [Phase],
    core: CoreId,
    phase: usize,
    course: Course<'a>,
) -> (usize, Course<'a>) {
    let mut phase = phase;
    let mut course = course;
    for _ in 0..phases.len() {
        let next = phase.saturating_add(1);
        if next >= phases.len() || got(rt, course.next_call()).is_some() {
            return (phase, course);
        }
        phase = next;
        course = Course::new(core.0 as u16, &phases[next]);
    }
    (phase, course)
}

// Marks each entry of a core with the phase that it belongs to. Says whether each is the core's next call, and all of its calls are made.
fn marks_phases(
    rt: &impl Abort,
    alloc: Global,
    history: &History,
    phases: &[Phase],
    core: CoreId,
    marks: &mut [usize],
) -> bool
    requires { 0 < length phases.now }
    ensures { length marks.new ≡ length marks.old }
{
    let mut phase = 0;
    let mut course = Course::new(core.0 as u16, &phases[0]);
    let mut cursor = history.first();
    for mark in marks.iter_mut() {
        let Some(entry) = history.next(&mut cursor) else {
            return false;
        };
        if entry.core != core {
            continue;
        }
        (phase, course) = go_on(rt, phases, core, phase, course);
        let Some(call) = got(rt, course.next_call()) else {
            return false;
        };
        if !is_same_call(rt, alloc, &call, &entry.call) {
            return false;
        }
        *mark = phase;
        course.take(&entry.reply);
    }
    let (_, course) = go_on(rt, phases, core, phase, course);
    got(rt, course.next_call()).is_none()
}

// Whether numbers do not fall.
fn is_rising(marks: &[usize]) -> bool {
    let mut last = 0;
    for mark in marks {
        if *mark < last {
            return false;
        }
        last = *mark;
    }
    true
}

// Whether the entries of each core are its worker's calls, phase after phase, up to the end, and no phase begins before the one before it
// has ended.
pub(crate) fn follows(
    rt: &impl Abort,
    alloc: Global,
    history: &History,
    script: &Script,
    cores: u8,
) -> bool {
    let phases = script.phases();
    let mut marks = got(rt, vec![in alloc; 0usize; history.len() as usize]);
    holds(rt, !phases.is_empty());
    for core in 0..cores {
        let core = CoreId(core);
        if !marks_phases(rt, alloc, history, phases, core, marks.as_mut_slice()) {
            return false;
        }
    }
    is_rising(marks.as_slice())
}

// Whether a reply may stand for the plain tree's: it is that, or the call is an fsync that the tree answers Ok and the reply is this one.
fn may_stand(call: &Call, due: &Reply, given: &Reply, served: &Reply) -> bool {
    match (call, due) {
        (Call::Fsync { .. }, Reply::Ok) => given.equals(served),
        _ => given.equals(due),
    }
}

// Whether a call asks for no more bytes than one may.
fn is_readable(call: &Call) -> bool
    ensures { result ≡ true → IsReadable call.now }
{
    match call {
        Call::Read { count, .. } => *count <= 65_536,
        _ => true,
    }
}

// Whether an entry has the reply that a plain tree gives there, or, where it is an fsync of a live node, this one.
fn has_due_reply(tree: &mut Tree, entry: &Entry, served: &Reply) -> Result<bool, NoMemory>
    requires sound { IsSound tree.old }
    requires known { entry.now.core.0 < length tree.old.made }
    requires readable { IsReadable entry.now.call }
    ensures sound { IsSound tree.new }
    ensures cores { length tree.new.made ≡ length tree.old.made }
{
    let due = tree.step(entry.core, &entry.call)?;
    Ok(may_stand(&entry.call, &due, &entry.reply, served))
}

// Whether each entry stands at its stamp, with the reply that a plain tree gives there, and each fsync of a live node has this one.
pub(crate) fn is_legal(
    rt: &impl Abort,
    history: &History,
    mut tree: Tree,
    cores: u8,
    served: &Reply,
) -> bool
    requires sound { IsSound tree }
    requires cores { length tree.made ≡ cores }
{
    let mut cursor = history.first();
    for stamp in 0..history.len() {
        let Some(entry) = history.next(&mut cursor) else {
            return false;
        };
        if entry.stamp.0 != stamp || entry.core.0 >= cores || !is_readable(&entry.call) {
            return false;
        }
        if !got(rt, has_due_reply(&mut tree, entry, served)) {
            return false;
        }
    }
    history.next(&mut cursor).is_none()
}
