// The plain machine of calls and commits, which is told a history and then the turns at the disk.
ghost use Rattle.std.specs.Prelude.{◌≡◌, length, IfSome};
ghost use Rattle.cut_laws.specs.Machine.{MachineState, MayBeTold};
ghost use Rattle.test_volume.specs.Base.{IsFirst};

use crate::helpers::{got, holds, some};
use crate::judged::{Base, CORES, is_acknowledged, is_readable};
use flush_core::{Cut, Event, State};
use sfs_base::RoomyList;
use std::alloc::Global;
use std::marker::Model;
use std::ops::Range;
use std::process::Abort;
use tree_laws::{Call, Entry, History, Turn, TurnAct, Turns};

/// The machine. Contracts see how many cores its first tree has.
#[derive(Drop)]
pub(crate) struct Machine {
    state: State,
}

impl Model for Machine {
    ghost use Rattle.std.specs.Prelude.{◌≡◌, ℕ, length};

    ghost Value = { ℕ };

    ghost view = { λ machine. length machine.state.first.made };

    ghost invariant = { λ machine. length machine.state.first.made ≡ 4 };
}

impl Machine {
    /// The machine that was told all calls of a history.
    pub(crate) fn new(rt: &impl Abort, alloc: Global, base: &Base, history: &History) -> Machine
        requires { IsFirst base.now.first }
    {
        let state = State::new(alloc, got(rt, base.first.copy()));
        let mut machine = Machine { state };
        tell_calls(rt, &mut machine, history);
        machine
    }

    /// Tells the turns at these places, in their order.
    pub(crate) fn tell_turns(&mut self, rt: &impl Abort, turns: &Turns, places: Range<u64>) {
        for place in places.start..places.end {
            let turn = some(rt, turns.get(place));
            if let Some(event) = turn_event(turn) {
                self.tell(rt, &event);
            }
        }
    }

    /// Tells a crash, behind which there is what these commits wrote.
    pub(crate) fn tell_crash(&mut self, rt: &impl Abort, kept: Vec<u64>) {
        let kept = RoomyList::from_vec(kept);
        self.tell(rt, &Event::Crash { kept });
    }

    /// What it says is on the disk of each node.
    pub(crate) fn cut(&self) -> &Cut {
        self.state.cut()
    }

    // Tells an event, which the machine takes.
    fn tell(&mut self, rt: &impl Abort, event: &Event)
        requires { (state : MachineState) → length state.first.made ≡ 4 → MayBeTold state event.now }
    {
        let taken = self.state.step(event).is_ok();
        holds(rt, taken);
    }

    // Whether the cut of an fsync's node has come to its stamp.
    fn covers(&self, entry: &Entry) -> bool {
        match &entry.call {
            Call::Fsync { node } => entry.stamp.0 <= self.state.cut().get(node.0),
            _ => false,
        }
    }
}

// A call's event.
fn call_event(rt: &impl Abort, entry: &Entry) -> Event
    ensures { (state : MachineState) → length state.first.made ≡ 4 → MayBeTold state result }
{
    holds(rt, entry.core.0 < CORES);
    holds(rt, is_readable(&entry.call));
    let entry = Entry {
        stamp: entry.stamp,
        core: entry.core,
        call: got(rt, entry.call.copy()),
        reply: got(rt, entry.reply.copy()),
        ack: entry.ack,
    };
    Event::Call { entry }
}

// A turn's event, where it has one.
fn turn_event(turn: &Turn) -> Option<Event>
    ensures { IfSome result (λ event. (state : MachineState) → MayBeTold state event) }
{
    let commit = turn.commit;
    match turn.act {
        TurnAct::CutAt => Some(Event::CutAt {
            commit,
            node: turn.node,
            stamp: turn.stamp,
        }),
        TurnAct::Opened => Some(Event::Opened { commit }),
        TurnAct::Durable => Some(Event::Durable { commit }),
        TurnAct::Fail => Some(Event::Fail { commit }),
        _ => None,
    }
}

// Tells the machine all calls.
fn tell_calls(rt: &impl Abort, machine: &mut Machine, history: &History) {
    let mut cursor = history.first();
    for _ in 0..history.len() {
        let entry = some(rt, history.next(&mut cursor));
        machine.tell(rt, &call_event(rt, entry));
    }
}

// Whether each fsync that was acknowledged is in the cut.
fn covers_all(machine: &Machine, history: &History) -> bool {
    let mut cursor = history.first();
    for _ in 0..history.len() {
        if let Some(entry) = history.next(&mut cursor)
            && is_acknowledged(entry)
            && !machine.covers(entry)
        {
            return false;
        }
    }
    true
}

/// Asserts that the machine takes all calls of a history, and then the turns at the disk in their order, and that its cut has come to each fsync that was
/// acknowledged.
pub(crate) fn assert_taken(
    rt: &impl Abort,
    alloc: Global,
    base: &Base,
    history: &History,
    turns: &Turns,
)
    requires { IsFirst base.now.first }
{
    let mut machine = Machine::new(rt, alloc, base, history);
    machine.tell_turns(rt, turns, 0..turns.len());
    holds(rt, covers_all(&machine, history));
}
