// The trees at cuts of a history: each directory has its rows, and each file its bytes, as they were after so many calls as the cut says of it.
ghost use Rattle.test_volume.specs.Base.{IsFirst};

use crate::helpers::{got, holds, some};
use crate::judged::{Base, CORES, is_readable};
use crate::trees::{Pair, add_children};
use flush_core::Cut;
use sfs_base::{Kind, NoMemory, NodeId};
use sfs_tree::Tree;
use std::alloc::Global;
use std::process::Abort;
use tree_laws::{Call, History};

/// The trees before the fsyncs of a history, each at the place of its fsync's stamp, and the tree at its end.
#[derive(Drop)]
pub(crate) struct Past {
    trees: Vec<Option<Tree>>,
    last: Tree,
}

impl Past {
    /// That of a legal history.
    pub(crate) fn new(rt: &impl Abort, alloc: Global, base: &Base, history: &History) -> Past
        requires { IsFirst base.now.first }
    {
        let mut trees = Vec::new(alloc);
        let mut last = got(rt, base.first.copy());
        let mut cursor = history.first();
        for _ in 0..history.len() {
            let entry = some(rt, history.next(&mut cursor));
            holds(rt, entry.core.0 < CORES && is_readable(&entry.call));
            let is_flush = matches!(&entry.call, Call::Fsync { .. });
            got(
                rt,
                trees.push(kept_if(rt, is_flush || trees.is_empty(), &last)),
            );
            let _ = got(rt, last.step(entry.core, &entry.call));
        }
        Past { trees, last }
    }

    // The tree after so many calls, where that is one of a cut.
    fn at(&self, stamp: u64) -> Option<&Tree> {
        match self.trees.get(stamp as usize) {
            Some(Some(tree)) => Some(tree),
            _ => None,
        }
    }
}

// A copy of a tree, or none.
fn kept_if(rt: &impl Abort, kept: bool, tree: &Tree) -> Option<Tree> {
    if kept {
        Some(got(rt, tree.copy()))
    } else {
        None
    }
}

// The bytes of a file, or none where it is not there yet.
fn bytes_of(tree: &Tree, file: NodeId) -> &[u8] {
    if tree.kind(file).is_some() {
        tree.bytes(file)
    } else {
        &[]
    }
}

// Whether a node of a tree is as one of the past is at a cut. Puts the children last.
fn is_as_cut(
    tree: &Tree,
    past: &Past,
    cut: &Cut,
    pair: Pair,
    unmet: &mut Vec<Pair>,
) -> Result<bool, NoMemory> {
    let Some(then) = past.at(cut.get(pair.other.0)) else {
        return Ok(false);
    };
    match (tree.kind(pair.one), past.last.kind(pair.other)) {
        (Some(Kind::Directory), Some(Kind::Directory)) => add_children(tree, then, pair, unmet),
        (Some(Kind::File), Some(Kind::File)) => {
            Ok(tree.bytes(pair.one) == bytes_of(then, pair.other))
        }
        _ => Ok(false),
    }
}

// Whether a node is met with the same node as before, if it was met, and no other one with that.
fn is_matched(met: &[Pair], pair: Pair) -> bool {
    for other in met {
        if (other.one == pair.one) != (other.other == pair.other) {
            return false;
        }
    }
    true
}

// How many rows a walk meets at most.
const MOST_MET: u32 = 10_000;

/// Whether a tree is that of the past at a cut, but for the numbers of its nodes: with its names, its bytes, and which names are of one node.
pub(crate) fn is_at_cut(
    alloc: Global,
    tree: &Tree,
    past: &Past,
    cut: &Cut,
) -> Result<bool, NoMemory> {
    let mut met = Vec::new(alloc);
    let mut unmet = Vec::new(alloc);
    unmet.push(Pair::ROOTS)?;
    for _ in 0..MOST_MET {
        let Some(pair) = unmet.pop() else {
            return Ok(true);
        };
        if !is_matched(met.as_slice(), pair) || !is_as_cut(tree, past, cut, pair, &mut unmet)? {
            return Ok(false);
        }
        met.push(pair)?;
    }
    Ok(false)
}
