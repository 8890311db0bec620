// The directories among the members of an fsync's commit, whose logs are trimmed once it is durable.
ghost use Rattle.std.specs.Prelude.{◌≡◌, IfOk};
ghost use Rattle.std.specs.Option.{option_copied};
ghost use Rattle.landing_laws.specs.Landed.{directories_of};
ghost use Rattle.fsync_dir.specs.Members.{all_but};

use mem_files::FileBytes;
use sfs_base::{NoMemory, NodeId};
use std::alloc::Global;

// A list of the same nodes.
fn all_members(alloc: Global, members: &[NodeId]) -> Result<Vec<NodeId>, NoMemory>
    ensures { IfOk result (λ list. list.items ≡ members.now) }
{
    let mut list = Vec::with_capacity(alloc, members.len())?;
    list.extend_from_slice(members)?;
    Ok(list)
}

// Those of some nodes that are not this one.
fn members_but(alloc: Global, members: &[NodeId], node: NodeId) -> Result<Vec<NodeId>, NoMemory>
    ensures { IfOk result (λ list. list.items ≡ all_but node members.now) }
{
    let mut list = Vec::with_capacity(alloc, members.len())?;
    for member in members {
        if member.0 != node.0 {
            list.push(*member)?;
        }
    }
    Ok(list)
}

/// The directories among the members of an fsync of a node: all, but for the node itself where it is a file, of which these are the bytes.
pub(crate) fn directories(
    alloc: Global,
    file: Option<&FileBytes>,
    node: NodeId,
    members: &[NodeId],
) -> Result<Vec<NodeId>, NoMemory>
    ensures { IfOk result (λ list. list.items ≡ directories_of (option_copied file.entry) node members.now) }
{
    match file {
        Some(_) => members_but(alloc, members, node),
        None => all_members(alloc, members),
    }
}
