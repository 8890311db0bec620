// A rename on the shared table.
ghost use Rattle.std.specs.Prelude.{◌≡◌, ◌⊎◌, ◌<◌, ◌≤◌, MatchOption};
ghost use Rattle.tree_laws.specs.declared.reply.Code.TheVariants.{NoEntry as NoneThere};
ghost use Rattle.stamp_table.specs.Table.{IsBetweenCalls};
ghost use Rattle.mem_calls.specs.Table.{IsFileTable};
ghost use Rattle.mem_calls.specs.Outcome.{IsAnswered, ComesTo};
ghost use Rattle.mem_rename.specs.Sights.{rename_call};

use crate::answers::answer;
use crate::looking::Decision;
use crate::moving::move_child;
use crate::settling::{decide_in, hold_for_rename};
use crate::shifts::Copied;
use crate::sides::Move;
use mem_calls::{TreeTable, answer_call, directory_fault_in, hold_directory, hold_part};
use mem_values::{FileCore, FileShared};
use sfs_base::{Gate, NoMemory, bucket_of};
use std::alloc::Global;
use std::sync::Wait;
use tree_laws::{Code, Reply};

/// For how many cells a core has room as a rename begins.
pub const RENAME_CELLS: u32 = 24;

// The fault, or no such entry.
fn fault_or(fault: Option<Code>) -> Code
    ensures { MatchOption fault (result ≡ NoneThere) (λ code. result ≡ code) }
{
    match fault {
        Some(code) => code,
        None => Code::NoEntry,
    }
}

// A rename of which a directory has a number that the table does not have: the old directory's fault, or no such entry.
fn answer_outside<R: Wait, G: Gate>(
    rt: &R,
    alloc: Global,
    shared: &FileShared,
    core: &mut FileCore,
    nodes: u32,
    move_: Move,
    gate: &G,
) -> Reply
    requires table { IsFileTable shared.now nodes }
    requires core { IsBetweenCalls shared.now core.old }
    requires outside { (nodes ≤ move_.directory.0) ⊎ (nodes ≤ move_.to_directory.0) }
    requires spare { 0 < core.old.spare }
    requires room { RENAME_CELLS ≤ core.old.room }
    ensures { IsAnswered shared.now (rename_call move_) result core.old core.new }
{
    let number = bucket_of(&move_.name);
    hold_directory(rt, shared, core, nodes, move_.directory, number);
    hold_part(rt, shared, core, nodes, gate);
    let code = fault_or(directory_fault_in(core, nodes, move_.directory, number));
    answer_call(
        alloc,
        shared,
        core,
        nodes,
        move_.into_call(),
        Reply::Error { code },
    );
    Reply::Error { code }
}

/// Gives the row of a name in a directory to another name, in the same directory or another one, in place of what that named. It holds
/// the cells that it reads and changes, under the lock of the tree where a directory comes to another one. It may wait. Only want of
/// memory refuses it.
pub fn rename<R: Wait, G: Gate>(
    rt: &R,
    alloc: Global,
    table: &TreeTable,
    core: &mut FileCore,
    move_: Move,
    gate: &G,
) -> Result<Reply, NoMemory>
    requires core { IsBetweenCalls table.now core.old }
    requires spare { 0 < core.old.spare }
    requires room { RENAME_CELLS ≤ core.old.room }
    ensures { ComesTo table.now (rename_call move_) core.old core.new result }
{
    let shared = table.shared();
    let nodes = table.nodes();
    if nodes <= move_.directory.0 || nodes <= move_.to_directory.0 {
        return Ok(answer_outside(rt, alloc, shared, core, nodes, move_, gate));
    }
    let copied = Copied::new(alloc, &move_)?;
    let settled = hold_for_rename(rt, alloc, shared, core, nodes, &move_, gate)?;
    match decide_in(core, nodes, &move_, &settled) {
        Decision::Answers { short } => {
            answer(alloc, shared, core, nodes, move_, settled, short);
            Ok(short.reply())
        }
        Decision::Moves { child } => {
            move_child(alloc, shared, core, nodes, move_, settled, copied, child)?;
            Ok(Reply::Ok)
        }
    }
}
