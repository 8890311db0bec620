// The cells that a rename asks for.
ghost use Rattle.std.specs.Prelude.{◌≡◌, ◌++◌, ◌≤◌, OnOk, IfOk, false, length, if◌then◌else◌};
ghost use Rattle.mem_rename.specs.Plans.{no_plan, is_plan, file_if, buckets_if, file_of, asked_cells};

use crate::plans::Plan;
use crate::sides::Move;
use mem_values::CellId;
use sfs_base::{NoMemory, NodeId, bucket_of};
use std::alloc::Global;

// The cell of a node as a file, where it is asked for.
fn push_file(cells: &mut Vec<CellId>, asked: bool, node: NodeId) -> Result<(), NoMemory>
    ensures { OnOk result (cells.new.items ≡ cells.old.items ++ file_if asked node) }
{
    if asked {
        cells.push(CellId::File { node })?;
    }
    Ok(())
}

// The cell of a file that may be there.
fn push_file_of(cells: &mut Vec<CellId>, node: Option<NodeId>) -> Result<(), NoMemory>
    ensures { OnOk result (cells.new.items ≡ cells.old.items ++ file_of node) }
{
    if let Some(node) = node {
        cells.push(CellId::File { node })?;
    }
    Ok(())
}

// The buckets of a directory that may be there.
fn push_buckets(cells: &mut Vec<CellId>, node: Option<NodeId>) -> Result<(), NoMemory>
    ensures { OnOk result (cells.new.items ≡ cells.old.items ++ buckets_if node) }
{
    let Some(node) = node else {
        return Ok(());
    };
    for bucket in 0..8u8 {
        cells.push(CellId::Bucket { node, bucket })?;
    }
    Ok(())
}

/// The two buckets in which the rows of a rename lie.
pub(crate) fn both_buckets(move_: &Move) -> [CellId; 2]
    ensures { result ≡ asked_cells move_.now no_plan }
{
    [
        CellId::Bucket {
            node: move_.directory,
            bucket: bucket_of(&move_.name),
        },
        CellId::Bucket {
            node: move_.to_directory,
            bucket: bucket_of(&move_.to_name),
        },
    ]
}

/// The cells of a plan but for the lock, behind both buckets; an empty list, which takes no memory, where the plan has none.
pub(crate) fn listed(
    alloc: Global,
    both: &[CellId; 2],
    move_: &Move,
    plan: Plan,
) -> Result<Vec<CellId>, NoMemory>
    requires { both.now ≡ asked_cells move_.now no_plan }
    ensures { IfOk result (λ cells. is_plan plan no_plan ≡ false → cells.items ≡ asked_cells move_.now plan) }
{
    let mut cells = Vec::new(alloc);
    if plan.is(Plan::none()) {
        return Ok(cells);
    }
    cells.push(both[0])?;
    cells.push(both[1])?;
    push_file(&mut cells, plan.old_file, move_.directory)?;
    push_file(&mut cells, plan.new_file, move_.to_directory)?;
    push_buckets(&mut cells, plan.comes)?;
    push_buckets(&mut cells, plan.directory)?;
    push_file_of(&mut cells, plan.file)?;
    Ok(cells)
}

/// Both buckets, where nothing is listed besides, or what is listed.
pub(crate) fn asked<'a>(both: &'a [CellId; 2], listed: &'a [CellId], plan: Plan) -> &'a [CellId]
    ensures { result.now ≡ if is_plan plan no_plan then both.now else listed.now }
{
    if plan.is(Plan::none()) { both } else { listed }
}
