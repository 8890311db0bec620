// The machine of calls and commits: a run of three commits, and each reason to refuse an event.
ghost use Rattle.std.specs.Prelude.{◌≡◌, ◌≤◌, length};
ghost use Rattle.cut_laws.specs.Machine.{MachineState, MayBeTold};

use crate::calls::{Asked, call_of};
use crate::helpers::{got, same};
use flush_core::{CommitList, Event, Refused, State};
use sfs_base::{CoreId, Kind, NoMemory, NodeId, SpaceKind, Stamp};
use sfs_tree::Tree;
use std::alloc::Global;
use std::marker::Model;
use std::process::Abort;
use tree_laws::{Code, Entry, Reply};

mod flights;
mod refusals;

// What a call was answered, as the tables have it.
enum Given {
    Done,
    // Ok, at this moment.
    Acked(u64),
    File(u32),
    Directory(u32),
    Error(Code),
    DiskFailed,
    NoSpace,
}

// An event, as the tables have it: a call by its stamp and its core; a commit's begin by its number, its node and its stamp; others
// by the numbers of their commits.
enum Told {
    Call(u64, u8, Asked, Given),
    CutAt(u64, u32, u64),
    Opened(u64),
    Durable(u64),
    Fail(u64),
    Crash(&'static [u64]),
}

// What an event is answered: that it is taken, or the reason to refuse it with its number.
enum Due {
    Taken,
    Crashed,
    NotNext(u64),
    NotLegal(Given),
    Stopped(u64),
    Used(u64),
    Meets(u32),
    Late(u64),
    NotFlying(u64),
    NotOpened(u64),
    AlreadyOpened(u64),
}

// A run from the root alone, with two cores. Contracts see the number of its cores alone, so that tests stay
// cheap to prove.
#[derive(Drop)]
pub(crate) struct Run {
    alloc: Global,
    pub(crate) state: State,
}

impl Model for Run {
    ghost use Rattle.std.specs.Prelude.{◌≡◌, ℕ, length};

    ghost Value = { ℕ };

    ghost view = { λ run. length run.state.first.made };

    ghost invariant = { λ run. length run.state.first.made ≡ 2 };
}

// A run whose first new node is 3; core 1 begins with 11.
fn begun(rt: &impl Abort, alloc: Global) -> Run {
    got(rt, begun_at(alloc, 3, 8))
}

// A run whose first new node has this number, with this share for each core.
pub(crate) fn begun_at(alloc: Global, first: u32, share: u32) -> Result<Run, NoMemory>
    requires first { 1 ≤ first }
    requires low { first ≤ 16384 }
    requires shares { share ≤ 32768 }
{
    let tree = Tree::empty(alloc, first, share, 2)?;
    let state = State::new(alloc, tree);
    Ok(Run { alloc, state })
}

fn reply_of(given: &Given) -> Reply {
    match *given {
        Given::Done => Reply::Ok,
        Given::Acked(_) => Reply::Ok,
        Given::File(node) => Reply::Node {
            node: NodeId(node),
            kind: Kind::File,
        },
        Given::Directory(node) => Reply::Node {
            node: NodeId(node),
            kind: Kind::Directory,
        },
        Given::Error(code) => Reply::Error { code },
        Given::DiskFailed => Reply::DiskFailed,
        Given::NoSpace => Reply::NoSpace {
            kind: SpaceKind::Blocks,
            need: 3,
            free: 1,
        },
    }
}

fn ack_of(given: &Given) -> Option<u64> {
    match *given {
        Given::Acked(moment) => Some(moment),
        _ => None,
    }
}

// A call's event. Its core is 0 or 1.
fn call_event(
    rt: &impl Abort,
    alloc: Global,
    stamp: u64,
    core: u8,
    asked: &Asked,
    given: &Given,
) -> Event
    ensures { (state : MachineState) → length state.first.made ≡ 2 → MayBeTold state result }
{
    if core >= 2 {
        panic!(rt; "a third core");
    }
    let call = call_of(rt, alloc, asked);
    Event::Call {
        entry: Entry {
            stamp: Stamp(stamp),
            core: CoreId(core),
            call,
            reply: reply_of(given),
            ack: ack_of(given),
        },
    }
}

// The event that is told.
fn event_of(rt: &impl Abort, alloc: Global, told: &Told) -> Event
    ensures { (state : MachineState) → length state.first.made ≡ 2 → MayBeTold state result }
{
    match told {
        Told::Call(stamp, core, asked, given) => call_event(rt, alloc, *stamp, *core, asked, given),
        Told::CutAt(commit, node, stamp) => Event::CutAt {
            commit: *commit,
            node: NodeId(*node),
            stamp: Stamp(*stamp),
        },
        Told::Opened(commit) => Event::Opened { commit: *commit },
        Told::Durable(commit) => Event::Durable { commit: *commit },
        Told::Fail(commit) => Event::Fail { commit: *commit },
        Told::Crash(kept) => Event::Crash {
            kept: CommitList::from_vec(got(rt, kept.to_vec(alloc))),
        },
    }
}

// Whether an event was refused for this reason.
fn is_refused(refused: &Refused, due: &Due) -> bool {
    match refused {
        Refused::Crashed => matches!(due, Due::Crashed),
        Refused::NotNext { want } => matches!(due, Due::NotNext(number) if *number == want.0),
        Refused::NotLegal { reply } => match due {
            Due::NotLegal(given) => reply.equals(&reply_of(given)),
            _ => false,
        },
        Refused::Stopped { commit } => matches!(due, Due::Stopped(number) if number == commit),
        Refused::Used { commit } => matches!(due, Due::Used(number) if number == commit),
        Refused::Meets { node } => matches!(due, Due::Meets(number) if *number == node.0),
        Refused::Late { stamp } => matches!(due, Due::Late(number) if *number == stamp.0),
        Refused::NotFlying { commit } => matches!(due, Due::NotFlying(number) if number == commit),
        Refused::NotOpened { commit } => matches!(due, Due::NotOpened(number) if number == commit),
        Refused::AlreadyOpened { commit } => {
            matches!(due, Due::AlreadyOpened(number) if number == commit)
        }
        Refused::NoMemory => false,
    }
}

impl Run {
    // Tells an event.
    pub(crate) fn step(&mut self, event: &Event) -> Result<(), Refused>
        requires { (state : MachineState) → length state.first.made ≡ 2 → MayBeTold state event.now }
    {
        self.state.step(event)
    }

    // Tells each of these events, and compares its answer.
    fn tell(&mut self, rt: &impl Abort, events: &[(Told, Due)]) {
        for (place, (told, due)) in events.iter().enumerate() {
            let event = event_of(rt, self.alloc, told);
            let is_due = match self.step(&event) {
                Ok(()) => matches!(due, Due::Taken),
                Err(refused) => is_refused(&refused, due),
            };
            same(rt, &(place, is_due), &(place, true));
        }
    }

    // Compares the cut of each of these nodes, and whether it has an inode.
    fn assert_nodes(&self, rt: &impl Abort, nodes: &[(u32, u64, bool)]) {
        for (node, stamp, has_inode) in nodes {
            let cut = self.state.cut().get(*node);
            same(rt, &(*node, cut), &(*node, *stamp));
            let has = self.state.has_inode(NodeId(*node));
            same(rt, &(*node, has), &(*node, *has_inode));
        }
    }
}
