// Calls on a tree, and what they are answered, as texts that were worked out by hand.
ghost use Rattle.std.specs.Prelude.{◌<◌, ◌≤◌};
ghost use Rattle.tree_laws.specs.Step.{IsReadable};

use crate::helpers::{got, holds_at};
use script::{text, tree_text};
use sfs_base::{Chunk, CoreId, Kind, Name, NoMemory, NodeId, Stamp};
use sfs_tree::Tree;
use std::alloc::Global;
use std::marker::Model;
use std::process::Abort;
use tree_laws::{Call, Entry, History, Reply};

mod limits;
mod table;

// A call, as the tables have it.
pub(crate) enum Asked {
    Look(u32, &'static str),
    Create(u32, &'static str),
    Mkdir(u32, &'static str),
    Link(u32, u32, &'static str),
    Unlink(u32, &'static str),
    Rmdir(u32, &'static str),
    Rename(u32, &'static str, u32, &'static str),
    Write(u32, u64, &'static str),
    Read(u32, u64, u16),
    Trunc(u32, u64),
    Stat(u32),
    List(u32),
    Fsync(u32),
}

// A sound tree of two cores, on which calls are tried. Contracts see the number of its cores alone, so
// that tests stay cheap to prove.
#[derive(Drop)]
pub(crate) struct Trial {
    alloc: Global,
    pub(crate) tree: Tree,
}

impl Model for Trial {
    ghost use Rattle.std.specs.Prelude.{◌≡◌, ℕ, length};

    ghost Value = { ℕ };

    ghost use Rattle.tree_laws.specs.Laws.{IsSoundTree};

    ghost view = { λ trial. length trial.tree.made };

    ghost invariant = { λ trial. IsSoundTree trial.tree × (length trial.tree.made ≡ 2) };
}

// The root alone, with 64 for the first new node, and this share for each of two cores.
pub(crate) fn root_alone(alloc: Global, share: u32) -> Result<Trial, NoMemory>
    requires share { share ≤ 32768 }
{
    let tree = Tree::empty(alloc, 64, share, 2)?;
    Ok(Trial { alloc, tree })
}

fn named(rt: &impl Abort, alloc: Global, dir: u32, name: &str) -> (NodeId, Name) {
    (NodeId(dir), got(rt, Name::new(alloc, name.as_bytes())))
}

fn made(rt: &impl Abort, alloc: Global, dir: u32, name: &str, kind: Kind) -> Call
    ensures { IsReadable result }
{
    let (dir, name) = named(rt, alloc, dir, name);
    Call::Make { dir, name, kind }
}

fn renamed(rt: &impl Abort, alloc: Global, from: (u32, &str), to: (u32, &str)) -> Call
    ensures { IsReadable result }
{
    let (dir, name) = named(rt, alloc, from.0, from.1);
    let (to_dir, to_name) = named(rt, alloc, to.0, to.1);
    Call::Rename {
        dir,
        name,
        to_dir,
        to_name,
    }
}

fn written(rt: &impl Abort, alloc: Global, file: u32, at: u64, bytes: &str) -> Call
    ensures { IsReadable result }
{
    match Chunk::new(got(rt, bytes.as_bytes().to_vec(alloc))) {
        Ok(bytes) => Call::Write {
            file: NodeId(file),
            at,
            bytes,
        },
        Err(_) => panic!(rt; "more bytes than one write has"),
    }
}

// The call that is asked.
pub(crate) fn call_of(rt: &impl Abort, alloc: Global, asked: &Asked) -> Call
    ensures { IsReadable result }
{
    match *asked {
        Asked::Look(dir, name) => {
            let (dir, name) = named(rt, alloc, dir, name);
            Call::Look { dir, name }
        }
        Asked::Create(dir, name) => made(rt, alloc, dir, name, Kind::File),
        Asked::Mkdir(dir, name) => made(rt, alloc, dir, name, Kind::Directory),
        Asked::Link(file, dir, name) => {
            let (dir, name) = named(rt, alloc, dir, name);
            Call::Link {
                file: NodeId(file),
                dir,
                name,
            }
        }
        Asked::Unlink(dir, name) => {
            let (dir, name) = named(rt, alloc, dir, name);
            Call::Unlink { dir, name }
        }
        Asked::Rmdir(dir, name) => {
            let (dir, name) = named(rt, alloc, dir, name);
            Call::Rmdir { dir, name }
        }
        Asked::Rename(dir, name, to_dir, to_name) => {
            renamed(rt, alloc, (dir, name), (to_dir, to_name))
        }
        Asked::Write(file, at, bytes) => written(rt, alloc, file, at, bytes),
        Asked::Read(file, at, count) => Call::Read {
            file: NodeId(file),
            at,
            count: u32::from(count),
        },
        Asked::Trunc(file, size) => Call::Trunc {
            file: NodeId(file),
            size,
        },
        Asked::Stat(node) => Call::Stat { node: NodeId(node) },
        Asked::List(dir) => Call::List { dir: NodeId(dir) },
        Asked::Fsync(node) => Call::Fsync { node: NodeId(node) },
    }
}

impl Trial {
    // What a call of a core is answered.
    pub(crate) fn step(&mut self, core: u8, call: &Call) -> Result<Reply, NoMemory>
        requires core { core < 2 }
        requires readable { IsReadable call.now }
    {
        self.tree.step(CoreId(core), call)
    }

    // The text of the tree.
    pub(crate) fn tree_text(&self, rt: &impl Abort) -> Vec<u8> {
        got(rt, tree_text(self.alloc, &self.tree))
    }

    // The text of a call of a core with its reply, behind the stamp 0.
    fn shown(&mut self, rt: &impl Abort, core: u8, call: Call) -> Vec<u8>
        requires core { core < 2 }
        requires readable { IsReadable call }
    {
        let alloc = self.alloc;
        let reply = got(rt, self.step(core, &call));
        let mut entries = Vec::new(alloc);
        got(
            rt,
            entries.push(Entry {
                stamp: Stamp(0),
                core: CoreId(core),
                call,
                reply,
                ack: None,
            }),
        );
        got(rt, text(alloc, &History::from_entries(entries)))
    }

    // Asserts that a call of core 0 has a text that ends so.
    pub(crate) fn assert_call(&mut self, rt: &impl Abort, call: Call, due: &str)
        requires { IsReadable call }
    {
        let text = self.shown(rt, 0, call);
        holds_at(rt, text.ends_with(due.as_bytes()), due);
    }

    // Asserts the text of each of these calls of core 0, one after another.
    pub(crate) fn assert_all(&mut self, rt: &impl Abort, cases: &[(Asked, &str)]) {
        for (asked, due) in cases {
            let call = call_of(rt, self.alloc, asked);
            self.assert_call(rt, call, due);
        }
    }
}

// Asserts the text of each of these calls, on a tree that is the root alone.
pub(crate) fn assert_from_root(rt: &impl Abort, alloc: Global, share: u32, cases: &[(Asked, &str)])
    requires share { share ≤ 32768 }
{
    let mut trial = got(rt, root_alone(alloc, share));
    trial.assert_all(rt, cases);
}
