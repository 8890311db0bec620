// The logs of all cores, each held, copied as far as a look asks and let go before the next one.
ghost use Rattle.std.specs.Prelude.{◌≡◌, ◌+◌, ◌*◌, ◌<◌, ◌≤◌, ◌^◌, Some, IsSome, IfOk, length, map};
ghost use Rattle.std.specs.List.Sorted.{IsStrictlyIncreasing};
ghost use Rattle.tree_laws.specs.NameRow.{node_number};
ghost use Rattle.log_copy.specs.Copies.{is_one_of, KeepsFor, KeepsOwn};
ghost use Rattle.stamp_table.specs.Ascending.{LiesAbove};
ghost use Rattle.mem_values.specs.Start.{given_by};
ghost use Rattle.mem_values.specs.Places.{cell_place};
ghost use Rattle.mem_values.specs.declared.cell.Cell.{Cell as CellValue};
ghost use Rattle.mem_values.specs.declared.cell_id.CellId.TheVariants as id;
ghost use Rattle.mem_calls.specs.Table.{IsFileTable};
ghost use Rattle.mem_calls.specs.Held.{part_held};
ghost use Rattle.mem_calls.specs.Changes.{PutsValue};
ghost use Rattle.mem_calls.specs.Working.{IsWorking};
ghost use Rattle.fsync_look.specs.Look.{SawMore, IsCopyOf, AreCopies};

use log_copy::copy_for;
use mem_calls::hold_more;
use mem_cells::LogPart;
use mem_values::{Cell, CellId, FileCore, FileShared, PartCell, TreeLock, replace_value};
use sfs_base::{CoreId, NoMemory, NodeId};
use std::alloc::Global;
use std::sync::Wait;

/// A core's log, which is held.
pub fn log_in(core: &FileCore, nodes: u32, number: CoreId) -> &PartCell
    requires { IsSome (part_held nodes core.now.held number.0) }
    ensures { part_held nodes core.now.held number.0 ≡ Some result.now }
{
    match core.cell(CellId::Part { core: number }.place(nodes)) {
        Cell::Part { part } => part,
        _ => unreachable!(),
    }
}

/// Takes a log that is held out of its cell, and leaves a value there that takes no memory.
pub fn take_log(core: &mut FileCore, nodes: u32, number: CoreId) -> Box<PartCell>
    requires { IsSome (part_held nodes core.old.held number.0) }
    ensures part { part_held nodes core.old.held number.0 ≡ Some result.value }
    ensures held { (value : CellValue) × PutsValue nodes (id.Part number) value core.old core.new }
{
    let hollow = Cell::Lock {
        lock: TreeLock { moved: None },
    };
    match replace_value(core, nodes, CellId::Part { core: number }, hollow) {
        Cell::Part { part } => part,
        _ => unreachable!(),
    }
}

// A copy of all of a log, or of what a look at some nodes, which ascend, asks for.
fn copy_asked(
    alloc: Global,
    log: &LogPart,
    held: &[NodeId],
    whole: bool,
) -> Result<LogPart, NoMemory>
    requires own { KeepsOwn log.now }
    requires ascend { IsStrictlyIncreasing (map node_number held.now) }
    requires few { length held.now < 2 ^ 32 }
    ensures { IfOk result (KeepsFor (is_one_of held.now) log.now) }
{
    if whole {
        log.copy()
    } else {
        copy_for(alloc, log, held)
    }
}

/// Holds the log of a core, copies all of it or what a look at the nodes `held`, which ascend, asks for, and lets it go. It waits while
/// another core has the log. All else that the core holds it still holds.
pub fn copy_log<R: Wait>(
    rt: &R,
    alloc: Global,
    shared: &FileShared,
    core: &mut FileCore,
    nodes: u32,
    number: CoreId,
    held: &[NodeId],
    whole: bool,
) -> Result<LogPart, NoMemory>
    requires table { IsFileTable shared.now nodes }
    requires work { IsWorking (given_by shared.now) shared.now core.old }
    requires within { number.0 < length shared.now.first.made }
    requires above { LiesAbove (cell_place nodes (id.Part number)) core.old.view.held }
    requires room { 0 < core.old.room }
    requires ascend { IsStrictlyIncreasing (map node_number held.now) }
    requires few { length held.now < 2 ^ 32 }
    ensures work { IsWorking (given_by shared.now) shared.now core.new }
    ensures saw { SawMore core.old core.new }
    ensures copy { IfOk result (IsCopyOf (given_by shared.now) nodes held.now core.old core.new number.0) }
{
    let cell = CellId::Part { core: number };
    hold_more(rt, shared, core, nodes, cell);
    let copy = copy_asked(alloc, &log_in(core, nodes, number).log, held, whole);
    core.let_go(shared, cell.place(nodes));
    copy
}

/// Copies the logs of all cores so, one after another.
pub fn copy_logs<R: Wait>(
    rt: &R,
    alloc: Global,
    shared: &FileShared,
    core: &mut FileCore,
    nodes: u32,
    cores: u8,
    held: &[NodeId],
    whole: bool,
) -> Result<Vec<LogPart>, NoMemory>
    requires table { IsFileTable shared.now nodes }
    requires work { IsWorking (given_by shared.now) shared.now core.old }
    requires cores { cores ≤ length shared.now.first.made }
    requires below { LiesAbove (32 + 10 * nodes) core.old.view.held }
    requires room { 0 < core.old.room }
    requires ascend { IsStrictlyIncreasing (map node_number held.now) }
    requires few { length held.now < 2 ^ 32 }
    ensures work { IsWorking (given_by shared.now) shared.now core.new }
    ensures saw { SawMore core.old core.new }
    ensures copies { IfOk result (λ logs. AreCopies (given_by shared.now) nodes cores held.now core.old core.new logs.items) }
{
    let mut logs = Vec::with_capacity(alloc, cores as usize)?;
    for number in 0..cores {
        let number = CoreId(number);
        logs.push_reserved(copy_log(rt, alloc, shared, core, nodes, number, held, whole)?);
    }
    Ok(logs)
}
