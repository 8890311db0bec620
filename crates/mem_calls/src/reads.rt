// The bytes of a file.
ghost use Rattle.std.specs.Prelude.{◌≡◌, ◌<◌, ◌≤◌, take, drop, IfOk, MatchResult};
ghost use Rattle.tree_laws.specs.Verdict.{verdict, answered};
ghost use Rattle.stamp_table.specs.Table.{IsBetweenCalls};
ghost use Rattle.mem_values.specs.Places.{node_count};
ghost use Rattle.mem_calls.specs.Held.{HoldsFile, InEach};
ghost use Rattle.mem_calls.specs.Outcome.{IsAnswered, IsRefusedMemory, ComesTo};

use crate::finish::finish;
use crate::held::{file_fault_in, file_in};
use crate::holding::{CALL_CELLS, hold_file, hold_part, let_all_go};
use crate::table::TreeTable;
use mem_files::FileBytes;
use mem_values::FileCore;
use sfs_base::{Chunk, Gate, NoMemory, NodeId};
use std::alloc::Global;
use std::sync::Wait;
use tree_laws::{Call, Reply};

// The bytes from a place on, so many of them or up to the end.
fn bytes_from(alloc: Global, file: &FileBytes, at: u64, count: u32) -> Result<Chunk, NoMemory>
    requires { count ≤ 65536 }
    ensures { IfOk result (λ chunk. chunk ≡ take count (drop at file.now.bytes)) }
{
    let left = file.size().saturating_sub(at);
    let count = left.min(count as u64) as usize;
    let mut bytes = vec![in alloc; 0u8; count]?;
    file.read(at, &mut bytes);
    match Chunk::new(bytes) {
        Ok(chunk) => Ok(chunk),
        Err(_) => unreachable!(),
    }
}

// What a read answers, by what is held, and the same once more.
fn read_in(
    alloc: Global,
    core: &FileCore,
    nodes: u32,
    file: NodeId,
    at: u64,
    count: u32,
) -> Result<(Reply, Reply), NoMemory>
    requires counted { nodes ≡ node_count core.now.view.first }
    requires held { HoldsFile nodes core.now.held file }
    requires count { count ≤ 65536 }
    ensures due { IfOk result (λ two. InEach core.now (λ tree. verdict tree core.now.view.core (Call.Read file at count) ≡ answered two.0)) }
    ensures same { IfOk result (λ two. two.1 ≡ two.0) }
{
    if let Some(code) = file_fault_in(core, nodes, file) {
        return Ok((Reply::Error { code }, Reply::Error { code }));
    }
    let bytes = bytes_from(alloc, &file_in(core, nodes, file).file, at, count)?;
    let copy = bytes.copy()?;
    Ok((Reply::Bytes { bytes }, Reply::Bytes { bytes: copy }))
}

/// Asks for `count` bytes of a file, at most 65,536, from byte `at` on. It holds the file, and where no row names it also the first
/// bucket of its node. It may wait. Only want of memory refuses it.
pub fn read<R: Wait, G: Gate>(
    rt: &R,
    alloc: Global,
    table: &TreeTable,
    core: &mut FileCore,
    file: NodeId,
    at: u64,
    count: u32,
    gate: &G,
) -> Result<Reply, NoMemory>
    requires core { IsBetweenCalls table.now core.old }
    requires spare { 0 < core.old.spare }
    requires room { CALL_CELLS ≤ core.old.room }
    requires count { count ≤ 65536 }
    ensures { ComesTo table.now (Call.Read file at count) core.old core.new result }
{
    let shared = table.shared();
    let nodes = table.nodes();
    hold_file(rt, shared, core, nodes, file);
    hold_part(rt, shared, core, nodes, gate);
    match read_in(alloc, core, nodes, file, at, count) {
        Ok((reply, answer)) => {
            let call = Call::Read { file, at, count };
            finish(alloc, shared, core, nodes, call, reply);
            Ok(answer)
        }
        Err(fault) => {
            let_all_go(shared, core);
            Err(fault)
        }
    }
}
