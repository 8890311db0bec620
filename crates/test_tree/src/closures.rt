// The closure of an fsync from the logs of its calls, beside the machine of calls and commits: the members are the nodes whose cuts
// the machine raises.
ghost use Rattle.std.specs.Prelude.{◌≡◌, length};
ghost use Rattle.tree_laws.specs.Step.{IsReadable};
ghost use Rattle.cut_laws.specs.Machine.{MachineState, MayBeTold};

use crate::calls::{Trial, root_alone};
use crate::helpers::{got, holds};
use crate::machine::{Run, begun_at};
use dep_closure::{DirectoryChanges, Gathered, NodeBirth, NodeCut, closure};
use flush_core::Event;
use plans::OnDisk;
use sfs_base::{CoreId, Kind, Name, NodeId, NodeList, RoomyList, Stamp};
use std::alloc::Global;
use std::process::Abort;
use tree_laws::{Act, Ancestors, Call, Change, Entry, Reply};

mod drawn;
mod plans;
mod rows;

// A number above those of all nodes.
const NODES: u32 = 200;

// The tree after some calls of one core, the machine that was told them, and what they log.
#[derive(Drop)]
struct Watched {
    alloc: Global,
    trial: Trial,
    run: Run,
    logged: Vec<Change>,
    births: Vec<NodeBirth>,
    directories: Vec<u32>,
    stamp: u64,
    commits: u64,
    disk: OnDisk,
}

// Nobody's calls yet. The first new node is 64.
fn begun(rt: &impl Abort, alloc: Global) -> Watched {
    let mut directories = Vec::new(alloc);
    got(rt, directories.push(0));
    Watched {
        alloc,
        trial: got(rt, root_alone(alloc, 512)),
        run: got(rt, begun_at(alloc, 64, 512)),
        logged: Vec::new(alloc),
        births: Vec::new(alloc),
        directories,
        stamp: 0,
        commits: 0,
        disk: plans::made(rt, alloc),
    }
}

// Puts changes behind the others.
fn log_all(rt: &impl Abort, logged: &mut Vec<Change>, told: Vec<Change>) {
    for change in told {
        got(rt, logged.push(change));
    }
}

impl Watched {
    // The child of a row.
    fn child(&self, rt: &impl Abort, dir: NodeId, name: &Name) -> Option<NodeId> {
        got(rt, self.trial.tree.names(dir)).get(name)
    }

    // The directory that has a row of a node.
    fn holder(&self, rt: &impl Abort, node: NodeId) -> Option<NodeId> {
        for directory in &self.directories {
            let names = got(rt, self.trial.tree.names(NodeId(*directory)));
            for row in names.rows() {
                if row.child == node {
                    return Some(NodeId(*directory));
                }
            }
        }
        None
    }

    // The directories above one, its holder first.
    fn above(&self, rt: &impl Abort, dir: NodeId) -> Ancestors {
        let mut above = Vec::new(self.alloc);
        let mut place = dir;
        for _ in &self.directories {
            match self.holder(rt, place) {
                Some(holder) => {
                    got(rt, above.push(holder));
                    place = holder;
                }
                None => break,
            }
        }
        Ancestors::new(NodeList::from_vec(above))
    }

    // The kind of a node.
    fn kind(&self, node: NodeId) -> Kind {
        self.trial.tree.kind(node).unwrap_or(Kind::File)
    }

    // A change of the next call that no rename between two directories makes.
    fn change(&self, rt: &impl Abort, dir: NodeId, name: &Name, child: NodeId, act: Act) -> Change {
        Change {
            stamp: Stamp(self.stamp),
            dir,
            name: got(rt, name.copy()),
            child,
            kind: self.kind(child),
            act,
            other: None,
            above: Ancestors::none(self.alloc),
        }
    }

    // The changes of a rename that puts a child.
    fn moved(&self, rt: &impl Abort, from: (NodeId, &Name), to: (NodeId, &Name)) -> Vec<Change> {
        let mut changes = Vec::new(self.alloc);
        let Some(child) = self.child(rt, from.0, from.1) else {
            return changes;
        };
        if let Some(there) = self.child(rt, to.0, to.1) {
            if there == child {
                return changes;
            }
            got(
                rt,
                changes.push(self.change(rt, to.0, to.1, there, Act::Remove)),
            );
        }
        got(
            rt,
            changes.push(self.change(rt, from.0, from.1, child, Act::Remove)),
        );
        got(
            rt,
            changes.push(self.change(rt, to.0, to.1, child, Act::Add)),
        );
        if from.0 != to.0 {
            self.tell_sides(rt, &mut changes, from.0, to.0);
        }
        changes
    }

    // Tells changes the two sides of their rename, and what puts a directory those above it.
    fn tell_sides(&self, rt: &impl Abort, changes: &mut Vec<Change>, from: NodeId, to: NodeId) {
        for change in changes.iter_mut() {
            change.other = Some(if change.dir == from { to } else { from });
            if change.act == Act::Add && change.kind == Kind::Directory {
                change.above = self.above(rt, to);
            }
        }
    }

    // What a call would log that is answered Ok.
    fn told(&self, rt: &impl Abort, call: &Call) -> Vec<Change> {
        let mut changes = Vec::new(self.alloc);
        match call {
            Call::Link { file, dir, name } => {
                got(
                    rt,
                    changes.push(self.change(rt, *dir, name, *file, Act::Add)),
                );
            }
            Call::Unlink { dir, name } => self.gone(rt, &mut changes, *dir, name),
            Call::Rmdir { dir, name } => self.gone(rt, &mut changes, *dir, name),
            Call::Rename {
                dir,
                name,
                to_dir,
                to_name,
            } => return self.moved(rt, (*dir, name), (*to_dir, to_name)),
            _ => {}
        }
        changes
    }

    // Adds the change by which a row goes.
    fn gone(&self, rt: &impl Abort, changes: &mut Vec<Change>, dir: NodeId, name: &Name) {
        if let Some(child) = self.child(rt, dir, name) {
            got(
                rt,
                changes.push(self.change(rt, dir, name, child, Act::Remove)),
            );
        }
    }

    // Makes a call, tells it the machine, and logs it.
    fn make(&mut self, rt: &impl Abort, call: &Call)
        requires { IsReadable call.now }
    {
        let told = self.told(rt, call);
        let reply = got(rt, self.trial.step(0, call));
        self.log(rt, call, &reply, told);
        self.tell_call(rt, call, reply, None);
    }

    // Logs what a call has changed by its reply.
    fn log(&mut self, rt: &impl Abort, call: &Call, reply: &Reply, told: Vec<Change>) {
        match reply {
            Reply::Ok => log_all(rt, &mut self.logged, told),
            Reply::Node { node, kind } => self.log_made(rt, call, *node, *kind),
            _ => {}
        }
    }

    // Logs the node that a call has made.
    fn log_made(&mut self, rt: &impl Abort, call: &Call, node: NodeId, kind: Kind) {
        if let Call::Make { dir, name, .. } = call {
            let made = self.change(rt, *dir, name, node, Act::Add);
            got(rt, self.logged.push(made));
            got(rt, self.births.push(NodeBirth { node, dir: *dir }));
            if kind == Kind::Directory {
                got(rt, self.directories.push(node.0));
            }
        }
    }

    // Tells the machine an event, which it takes.
    fn tell(&mut self, rt: &impl Abort, event: &Event)
        requires { (state : MachineState) → length state.first.made ≡ 2 → MayBeTold state event.now }
    {
        let taken = self.run.step(event).is_ok();
        holds(rt, taken);
    }

    // Tells the machine a call with its reply.
    fn tell_call(&mut self, rt: &impl Abort, call: &Call, reply: Reply, ack: Option<u64>)
        requires { IsReadable call.now }
    {
        let entry = Entry {
            stamp: Stamp(self.stamp),
            core: CoreId(0),
            call: got(rt, call.copy()),
            reply,
            ack,
        };
        self.tell(rt, &Event::Call { entry });
        self.stamp = self.stamp.saturating_add(1);
    }

    // What an fsync gathers of the calls so far: all of it, or what is not flushed alone.
    fn gathered(&self, rt: &impl Abort, all: bool) -> Gathered {
        let mut logs = Vec::new(self.alloc);
        let mut cuts = Vec::new(self.alloc);
        let mut inodes = Vec::new(self.alloc);
        for node in 0..NODES {
            let cut = self.run.state.cut().get(node);
            let changes = self.changes(rt, node, if all { 0 } else { cut });
            if !changes.is_empty() {
                got(
                    rt,
                    logs.push(DirectoryChanges {
                        dir: NodeId(node),
                        changes: RoomyList::from_vec(changes),
                    }),
                );
            }
            if cut > 0 {
                got(
                    rt,
                    cuts.push(NodeCut {
                        node: NodeId(node),
                        cut: Stamp(cut),
                    }),
                );
            }
            if self.run.state.has_inode(NodeId(node)) {
                got(rt, inodes.push(NodeId(node)));
            }
        }
        Gathered {
            logs: RoomyList::from_vec(logs),
            cuts: RoomyList::from_vec(cuts),
            births: RoomyList::from_vec(got(rt, self.births.to_vec(self.alloc))),
            inodes: NodeList::from_vec(inodes),
        }
    }

    // A directory's changes from a stamp on.
    fn changes(&self, rt: &impl Abort, dir: u32, from: u64) -> Vec<Change> {
        let mut changes = Vec::new(self.alloc);
        for change in &self.logged {
            if change.dir.0 == dir && change.stamp.0 >= from {
                got(rt, changes.push(got(rt, change.copy())));
            }
        }
        changes
    }

    // The nodes that an fsync flushes by what it has gathered.
    fn members(&self, rt: &impl Abort, node: u32, all: bool) -> Vec<u32> {
        let gathered = self.gathered(rt, all);
        holds(rt, gathered.is_orderly());
        let nodes = got(
            rt,
            closure(self.alloc, NodeId(node), Stamp(self.stamp), &gathered),
        );
        let mut members = Vec::new(self.alloc);
        for node in nodes.as_slice() {
            got(rt, members.push(node.0));
        }
        members
    }

    // Fsyncs a live node, and gives the nodes whose cuts the machine raises by it.
    fn flush(&mut self, rt: &impl Abort, node: u32) -> Vec<u32> {
        let stamp = self.stamp;
        let commit = self.commits;
        self.commits = commit.saturating_add(1);
        self.tell(
            rt,
            &Event::CutAt {
                commit,
                node: NodeId(node),
                stamp: Stamp(stamp),
            },
        );
        self.tell(rt, &Event::Opened { commit });
        self.tell(rt, &Event::Durable { commit });
        let fsync = Call::Fsync { node: NodeId(node) };
        self.tell_call(rt, &fsync, Reply::Ok, Some(1));
        let mut raised = Vec::new(self.alloc);
        for node in 0..NODES {
            if self.run.state.cut().get(node) == stamp {
                got(rt, raised.push(node));
            }
        }
        raised
    }

    // Compares the members of an fsync, from all logs and from what is not flushed, with those of the machine, and the nodes that have
    // an inode once its plan was committed.
    fn compare(&mut self, rt: &impl Abort, node: u32) -> Vec<u32> {
        let members = self.members(rt, node, true);
        let unflushed = self.members(rt, node, false);
        holds(rt, unflushed.as_slice() == members.as_slice());
        self.commit_plan(rt, node, members.as_slice());
        let raised = self.flush(rt, node);
        holds(rt, raised.as_slice() == members.as_slice());
        self.same_inodes(rt);
        members
    }
}
