// The rows of a story's nodes at a cut, and why they are no sound tree.
ghost use Rattle.std.specs.Prelude.{◌≡◌, ◌≤◌, length, IfOk};
ghost use Rattle.tree_laws.specs.Sound.{IsSound};
ghost use Rattle.tree_laws.specs.Step.{IsReadable};

use crate::calls::{Asked, call_of};
use crate::helpers::got;
use flush_core::{Cut, Rule, Story};
use sfs_base::{CoreId, Kind, NoMemory, NodeId};
use sfs_tree::Tree;
use std::alloc::Global;
use std::marker::Model;
use std::process::Abort;
use tree_laws::{Call, Reply};

// A node that there is.
#[derive(Clone, Copy)]
pub(crate) struct Known {
    node: u32,
    is_directory: bool,
}

// A row, with the first byte of its name.
#[derive(Clone, Copy)]
pub(crate) struct Row {
    pub(crate) directory: u32,
    pub(crate) name: u8,
    pub(crate) child: u32,
}

// Why rows are no sound tree.
#[derive(Clone, Copy, PartialEq, Eq)]
pub(crate) enum Fault {
    // A row names the root.
    NamedRoot,
    // A row names what is no node.
    Unknown(u32),
    // What has a row is no directory.
    NoDirectory(u32),
    // What has a row is not the root, and no row names it.
    Adrift(u32),
    // Two rows name this directory.
    NamedTwice(u32),
    // The walk up from this directory does not end at the root.
    Lost(u32),
}

// A story of one core's calls, with the nodes that there are. Contracts see the number of cores alone, so
// that tests stay cheap to prove.
#[derive(Drop)]
pub(crate) struct Plot {
    alloc: Global,
    story: Story,
    nodes: Vec<Known>,
}

impl Model for Plot {
    ghost use Rattle.std.specs.Prelude.{◌≡◌, ℕ, length};

    ghost Value = { ℕ };

    ghost view = { λ plot. length plot.story.first.made };

    ghost invariant = { λ plot. length plot.story.first.made ≡ 2 };
}

// The story without calls, from a tree that is the root alone with these calls made, whose first new node has
// this number.
pub(crate) fn begun(rt: &impl Abort, alloc: Global, first: u32, calls: &[Asked]) -> Plot
    requires first { 1 ≤ first }
    requires low { first ≤ 16384 }
{
    let mut nodes = Vec::new(alloc);
    got(
        rt,
        nodes.push(Known {
            node: 0,
            is_directory: true,
        }),
    );
    let tree = got(rt, first_tree(rt, alloc, first, calls, &mut nodes));
    let story = Story::new(alloc, tree);
    Plot {
        alloc,
        story,
        nodes,
    }
}

// The root alone with these calls made, whose nodes join the others.
fn first_tree(
    rt: &impl Abort,
    alloc: Global,
    first: u32,
    calls: &[Asked],
    nodes: &mut Vec<Known>,
) -> Result<Tree, NoMemory>
    requires first { 1 ≤ first }
    requires low { first ≤ 16384 }
    ensures sound { IfOk result (λ tree. IsSound tree) }
    ensures cores { IfOk result (λ tree. length tree.made ≡ 2) }
{
    let mut tree = Tree::empty(alloc, first, 8, 2)?;
    for asked in calls {
        let call = call_of(rt, alloc, asked);
        let reply = tree.step(CoreId(0), &call)?;
        note(rt, &reply, nodes);
    }
    Ok(tree)
}

// Adds the node that a call has made, where it has made one. No call is a look.
fn note(rt: &impl Abort, reply: &Reply, nodes: &mut Vec<Known>) {
    if let Reply::Node { node, kind } = reply {
        got(
            rt,
            nodes.push(Known {
                node: node.0,
                is_directory: *kind == Kind::Directory,
            }),
        );
    }
}

impl Plot {
    // Makes a call, whatever it is answered.
    pub(crate) fn make(&mut self, rt: &impl Abort, call: &Call)
        requires { IsReadable call.now }
    {
        let reply = got(rt, self.story.add(CoreId(0), call));
        note(rt, &reply, &mut self.nodes);
    }

    // Makes each of these calls.
    pub(crate) fn make_all(&mut self, rt: &impl Abort, calls: &[Asked]) {
        for asked in calls {
            let call = call_of(rt, self.alloc, asked);
            self.make(rt, &call);
        }
    }

    // The highest number of a node.
    pub(crate) fn last_node(&self) -> u32 {
        let mut last = 0;
        for known in &self.nodes {
            last = last.max(known.node);
        }
        last
    }

    // The first rule that a cut breaks.
    pub(crate) fn broken_rule(&self, rt: &impl Abort, cut: &Cut) -> Option<Rule> {
        got(rt, self.story.broken_rule(cut))
    }

    // The rows of all nodes at a cut, in the order in which the nodes were made.
    pub(crate) fn rows_at(&self, rt: &impl Abort, cut: &Cut) -> Vec<Row> {
        let mut rows = Vec::new(self.alloc);
        for known in &self.nodes {
            self.add_rows(rt, cut, known.node, &mut rows);
        }
        rows
    }

    // The rows of all nodes behind all calls.
    pub(crate) fn last_rows(&self, rt: &impl Abort) -> Vec<Row> {
        let mut cut = Cut::new(self.alloc);
        for known in &self.nodes {
            got(rt, cut.raise(known.node, u64::MAX));
        }
        self.rows_at(rt, &cut)
    }

    // Adds the rows of a node at a cut.
    fn add_rows(&self, rt: &impl Abort, cut: &Cut, node: u32, rows: &mut Vec<Row>) {
        let names = got(rt, self.story.rows_at(cut, NodeId(node)));
        for row in names.rows() {
            got(
                rt,
                rows.push(Row {
                    directory: node,
                    name: row.name.bytes().first().copied().unwrap_or(0),
                    child: row.child.0,
                }),
            );
        }
    }

    // The first fault of rows over the story's nodes, or None where they are a sound tree.
    pub(crate) fn fault_of(&self, rows: &[Row]) -> Option<Fault> {
        for row in rows {
            if let Some(fault) = row_fault(&self.nodes, rows, *row) {
                return Some(fault);
            }
        }
        None
    }
}

// The first fault of one of some rows.
fn row_fault(nodes: &[Known], rows: &[Row], row: Row) -> Option<Fault> {
    if row.child == 0 {
        return Some(Fault::NamedRoot);
    }
    if !is_directory(nodes, row.directory) {
        return Some(Fault::NoDirectory(row.directory));
    }
    if row.directory != 0 && holder_of(rows, row.directory).is_none() {
        return Some(Fault::Adrift(row.directory));
    }
    if is_directory(nodes, row.child) {
        return place_fault(rows, row.child);
    }
    if is_node(nodes, row.child) {
        None
    } else {
        Some(Fault::Unknown(row.child))
    }
}

// The fault of a directory's place among some rows.
fn place_fault(rows: &[Row], directory: u32) -> Option<Fault> {
    if is_named_twice(rows, directory) {
        Some(Fault::NamedTwice(directory))
    } else if is_lost(rows, directory) {
        Some(Fault::Lost(directory))
    } else {
        None
    }
}

fn is_node(nodes: &[Known], node: u32) -> bool {
    for known in nodes {
        if known.node == node {
            return true;
        }
    }
    false
}

fn is_directory(nodes: &[Known], node: u32) -> bool {
    for known in nodes {
        if known.node == node {
            return known.is_directory;
        }
    }
    false
}

// The directory of the first row that names a node.
fn holder_of(rows: &[Row], node: u32) -> Option<u32> {
    for row in rows {
        if row.child == node {
            return Some(row.directory);
        }
    }
    None
}

fn is_named_twice(rows: &[Row], node: u32) -> bool {
    let mut is_named = false;
    for row in rows {
        if row.child == node {
            if is_named {
                return true;
            }
            is_named = true;
        }
    }
    false
}

// Whether a walk up of as many steps as there are rows does not end at the root.
fn is_lost(rows: &[Row], directory: u32) -> bool {
    let mut place = directory;
    for _ in rows {
        match holder_of(rows, place) {
            Some(holder) => place = holder,
            None => return place != 0,
        }
    }
    place != 0
}

// The cut with these stamps.
pub(crate) fn cut_at(rt: &impl Abort, alloc: Global, stamps: &[(u32, u64)]) -> Cut {
    let mut cut = Cut::new(alloc);
    for (node, stamp) in stamps {
        got(rt, cut.raise(*node, *stamp));
    }
    cut
}
