// The changes that a rename logs of a child that moves.
ghost use Rattle.std.specs.Prelude.{◌≡◌, ◌+◌, ◌<◌, ◌≤◌, [], ◌∷◌, ◌++◌, true, IfOk, Some, IsSome, is_some, option_map};
ghost use Rattle.tree_laws.specs.declared.changes.Act.TheVariants.{Add as Adding};
ghost use Rattle.tree_laws.specs.Changes.{other_side};
ghost use Rattle.tree_laws.specs.Logged.{numbered_node, log_entry};
ghost use Rattle.tree_laws.specs.Tree.{kind_if};
ghost use Rattle.mem_rename.specs.Shifts.{gone_entry, gone_by, shift_logged, shift_of, IsCopiedMove};

use crate::looking::Look;
use crate::sides::Move;
use sfs_base::{Kind, Name, NoMemory, NodeId, Stamp};
use std::alloc::Global;
use tree_laws::{Act, Ancestors, Change, Changes};

/// A child that moves from one directory to another one or the same, what stands there, and whether these two are directories.
#[derive(Clone, Copy)]
pub(crate) struct Shift {
    pub(crate) from: NodeId,
    pub(crate) to: NodeId,
    pub(crate) child: NodeId,
    pub(crate) there: Option<NodeId>,
    pub(crate) child_is_directory: bool,
    pub(crate) there_is_directory: bool,
}

impl Shift {
    /// That of a child by what its rename has looked at.
    pub(crate) fn by(look: Look, move_: &Move, child: NodeId) -> Self
        ensures { result ≡ shift_of look move_.now child }
    {
        Shift {
            from: move_.directory,
            to: move_.to_directory,
            child,
            there: look.there,
            child_is_directory: look.child_is_directory,
            there_is_directory: look.there_is_directory,
        }
    }
}

/// What a rename takes of memory before it holds anything: its names once more, the new one twice, and room for three changes.
#[derive(Drop)]
pub(crate) struct Copied {
    pub(crate) changes: Changes,
    pub(crate) old: Name,
    pub(crate) new: Name,
    pub(crate) row: Name,
}

impl Copied {
    /// Of a rename.
    pub(crate) fn new(alloc: Global, move_: &Move) -> Result<Self, NoMemory>
        ensures { IfOk result (λ copied. IsCopiedMove move_.now copied) }
    {
        let old = move_.name.copy()?;
        let new = move_.to_name.copy()?;
        let row = move_.to_name.copy()?;
        let mut changes = Changes::new(alloc);
        changes.reserve(3)?;
        Ok(Copied {
            changes,
            old,
            new,
            row,
        })
    }
}

/// What is left of this for the changes, once the new row has its name: where it came in place of another one, that name is for the change of
/// what was there.
#[derive(Drop)]
pub(crate) struct Noted {
    pub(crate) changes: Changes,
    pub(crate) old: Name,
    pub(crate) new: Name,
    pub(crate) gone: Option<Name>,
}

// The other one of two directories, where they are two.
fn other_of(dir: NodeId, other: NodeId) -> Option<NodeId>
    ensures { result ≡ option_map numbered_node (other_side dir.0 other.0) }
{
    if dir == other { None } else { Some(other) }
}

// The kind of a directory or a file.
fn kind_of(directory: bool) -> Kind
    ensures { result ≡ kind_if directory }
{
    if directory {
        Kind::Directory
    } else {
        Kind::File
    }
}

// The change of a row that goes.
fn gone(
    alloc: Global,
    stamp: Stamp,
    dirs: (NodeId, NodeId),
    name: Name,
    child: (NodeId, bool),
) -> Change
    ensures { result ≡ gone_entry stamp.0 dirs.0.0 name child.0 child.1 dirs.1.0 }
{
    Change {
        stamp,
        dir: dirs.0,
        name,
        child: child.0,
        kind: kind_of(child.1),
        act: Act::Remove,
        other: other_of(dirs.0, dirs.1),
        above: Ancestors::none(alloc),
    }
}

// The change of the new row.
fn come(stamp: Stamp, shift: Shift, name: Name, above: Ancestors) -> Change
    ensures { result ≡ log_entry stamp.0 shift.to.0 name shift.child.0 (kind_if shift.child_is_directory) Adding (other_side shift.to.0 shift.from.0) above }
{
    Change {
        stamp,
        dir: shift.to,
        name,
        child: shift.child,
        kind: kind_of(shift.child_is_directory),
        act: Act::Add,
        other: other_of(shift.to, shift.from),
        above,
    }
}

// The change of what is replaced, in room that was made.
fn with_gone(
    alloc: Global,
    changes: Changes,
    stamp: Stamp,
    shift: Shift,
    name: Option<Name>,
) -> Changes
    requires room { 0 < changes.spare }
    requires name { is_some shift.there ≡ true → IsSome name }
    ensures items { (new : _) → (is_some shift.there ≡ true → name ≡ Some new)
        → result.items ≡ changes.items ++ gone_by shift new stamp.0 shift.there }
    ensures spare { changes.spare ≤ result.spare + 1 }
{
    let mut changes = changes;
    let Some(there) = shift.there else {
        return changes;
    };
    let Some(name) = name else { unreachable!() };
    let child = (there, shift.there_is_directory);
    changes.push(gone(alloc, stamp, (shift.to, shift.from), name, child));
    changes
}

/// The changes that a rename logs, in room that was made.
pub(crate) fn shifted(
    alloc: Global,
    noted: Noted,
    stamp: Stamp,
    shift: Shift,
    above: Ancestors,
) -> Changes
    requires none { noted.changes.items ≡ [] }
    requires room { 3 ≤ noted.changes.spare }
    requires gone { is_some shift.there ≡ true → noted.gone ≡ Some noted.new }
    ensures { result.items ≡ shift_logged shift noted.old noted.new stamp.0 above }
{
    let mut changes = with_gone(alloc, noted.changes, stamp, shift, noted.gone);
    let dirs = (shift.from, shift.to);
    let child = (shift.child, shift.child_is_directory);
    changes.push(gone(alloc, stamp, dirs, noted.old, child));
    changes.push(come(stamp, shift, noted.new, above));
    changes
}
