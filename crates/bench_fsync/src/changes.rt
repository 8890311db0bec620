// What is changed before an fsync, and what another core changes beside it.
ghost use Rattle.std.specs.Prelude.{IfSome};
ghost use Rattle.tree_laws.specs.Step.{IsReadable};
ghost use Rattle.bench_fsync.specs.Mounted.{IsMounted};

use crate::calls::{is_done, node_of};
use crate::cases::{Case, plain_name, row_name};
use crate::disks::{ROOT, making, writing};
use mount::Mounted;
use sfs_base::{Kind, Name, NodeId};
use sfs_dev::Memory;
use std::alloc::Global;
use std::sync::Wait;
use tree_laws::Call;

/// What is changed and flushed.
#[derive(Drop)]
pub(crate) enum Target {
    /// A row of a directory, which has two names by turns.
    Row {
        dir: NodeId,
        first: Name,
        other: Name,
    },
    /// A block of a file, whose bytes change.
    Block {
        file: NodeId,
        block: u32,
    },
}

impl Target {
    /// What is flushed.
    fn node(&self) -> NodeId {
        match self {
            Target::Row { dir, .. } => *dir,
            Target::Block { file, .. } => *file,
        }
    }

    // The call that changes it for this time.
    fn change(&self, alloc: Global, time: u32) -> Option<Call>
        ensures { IfSome result IsReadable }
    {
        match self {
            Target::Row { dir, first, other } => {
                let (from, to) = if time % 2 == 0 {
                    (first, other)
                } else {
                    (other, first)
                };
                Some(Call::Rename {
                    dir: *dir,
                    name: from.copy().ok()?,
                    to_dir: *dir,
                    to_name: to.copy().ok()?,
                })
            }
            Target::Block { file, block } => {
                writing(alloc, *file, *block, 1, (time % 251) as u8)
            }
        }
    }
}

/// What a case changes: what lies in the middle.
pub(crate) fn target_of<R: Wait>(
    rt: &R,
    alloc: Global,
    mounted: &mut Mounted<Memory>,
    case: Case,
) -> Option<Target>
    requires { IsMounted mounted.old }
    ensures { IsMounted mounted.new }
{
    let (word, row) = match case {
        Case::Blocks { .. } => ("f", 0),
        _ => ("d", case.rows() / 2),
    };
    let name = plain_name(alloc, word)?;
    let node = node_of(rt, alloc, mounted, 0, Call::Look { dir: ROOT, name })?;
    match case {
        Case::Blocks { blocks } => Some(Target::Block {
            file: node,
            block: blocks / 2,
        }),
        _ => Some(Target::Row {
            dir: node,
            first: row_name(alloc, row, 0)?,
            other: row_name(alloc, row, 8)?,
        }),
    }
}

/// Changes a target for these times, each followed by an fsync or none, and says whether all was answered Ok.
pub(crate) fn are_changed<R: Wait>(
    rt: &R,
    alloc: Global,
    mounted: &mut Mounted<Memory>,
    target: &Target,
    from: u32,
    until: u32,
    is_flushed: bool,
) -> bool
    requires { IsMounted mounted.old }
    ensures { IsMounted mounted.new }
{
    let mut done = true;
    let node = target.node();
    for time in from..until {
        match target.change(alloc, time) {
            Some(asked) => done = is_done(rt, alloc, mounted, 0, asked) && done,
            None => done = false,
        }
        if is_flushed {
            done = is_done(rt, alloc, mounted, 0, Call::Fsync { node }) && done;
        }
    }
    done
}

// The other core makes a file in a directory, gives it a further name, and takes both names away.
fn is_made_and_gone<R: Wait>(
    rt: &R,
    alloc: Global,
    mounted: &mut Mounted<Memory>,
    dir: NodeId,
) -> Option<bool>
    requires { IsMounted mounted.old }
    ensures { IsMounted mounted.new }
{
    let file = node_of(rt, alloc, mounted, 1, making(alloc, dir, "a", Kind::File)?)?;
    let name = plain_name(alloc, "b")?;
    let mut done = is_done(rt, alloc, mounted, 1, Call::Link { file, dir, name });
    for word in ["a", "b"] {
        let name = plain_name(alloc, word)?;
        done = is_done(rt, alloc, mounted, 1, Call::Unlink { dir, name }) && done;
    }
    Some(done)
}

/// The other core makes its changes, so many times four, and flushes none.
pub(crate) fn are_made_beside<R: Wait>(
    rt: &R,
    alloc: Global,
    mounted: &mut Mounted<Memory>,
    rounds: u32,
) -> bool
    requires { IsMounted mounted.old }
    ensures { IsMounted mounted.new }
{
    let Some(name) = plain_name(alloc, "e") else {
        return false;
    };
    let Some(dir) = node_of(rt, alloc, mounted, 1, Call::Look { dir: ROOT, name }) else {
        return false;
    };
    let mut done = true;
    for _ in 0..rounds {
        let made = is_made_and_gone(rt, alloc, mounted, dir);
        done = made == Some(true) && done;
    }
    done
}
