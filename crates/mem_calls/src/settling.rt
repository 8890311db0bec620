// The cells of a node that is made, without memory, behind the stamp.
ghost use Rattle.std.specs.Prelude.{◌≡◌, ◌<◌, Some, IsSome};
ghost use Rattle.mem_values.specs.declared.cell.FileCell.{FileCell as FileValue};
ghost use Rattle.mem_calls.specs.Held.{file_held, pending_held};
ghost use Rattle.mem_calls.specs.Creations.{HoldsOwn, HoldsCreated, is_own_cell, is_flushed_cell, is_new_cell, SettlesCreation};

use crate::rows::raise_links;
use crate::standing::place_directory;
use crate::taking::{put, take_pending};
use mem_values::{Cell, CellId, FileCore, Pending};
use sfs_base::{Kind, NodeId};

// Gives a file its first name, or a directory its place.
fn settle_own(core: &mut FileCore, nodes: u32, child: NodeId, kind: Kind, dir: NodeId)
    requires within { child.0 < nodes }
    requires own { HoldsOwn nodes core.old.held child kind }
    requires links { (file : FileValue) → file_held nodes core.old.held child ≡ Some file → file.links < 65535 }
    ensures { SettlesCreation nodes (is_own_cell child kind) dir core.old core.new }
{
    match kind {
        Kind::File => raise_links(core, nodes, child),
        Kind::Directory => place_directory(core, nodes, child, Some(dir)),
    }
}

// What was flushed of a node, made in this directory.
fn made_in(pending: Box<Pending>, dir: NodeId) -> Box<Pending>
    ensures { result.value ≡ record pending.value { made_in = Some dir } }
{
    let mut pending = pending;
    pending.made_in = Some(dir);
    pending
}

// Tells in which directory a node was made.
fn settle_flushed(core: &mut FileCore, nodes: u32, child: NodeId, dir: NodeId)
    requires within { child.0 < nodes }
    requires held { IsSome (pending_held nodes core.old.held child) }
    ensures { SettlesCreation nodes (is_flushed_cell child) dir core.old core.new }
{
    let pending = made_in(take_pending(core, nodes, child), dir);
    let cell = CellId::Pending { node: child };
    put(core, nodes, cell, Cell::Pending { pending });
}

/// Gives the cells of a node, which are held, what its creation in a directory makes of them.
pub(crate) fn settle(core: &mut FileCore, nodes: u32, child: NodeId, kind: Kind, dir: NodeId)
    requires new { HoldsCreated nodes core.old.held child kind }
    requires links { (file : FileValue) → file_held nodes core.old.held child ≡ Some file → file.links < 65535 }
    ensures { SettlesCreation nodes (is_new_cell child kind) dir core.old core.new }
{
    settle_own(core, nodes, child, kind, dir);
    settle_flushed(core, nodes, child, dir);
}
