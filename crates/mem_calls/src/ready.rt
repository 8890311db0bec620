// What may be refused memory of a call that changes a row, done before its stamp.
ghost use Rattle.std.specs.Prelude.{◌≡◌, ◌≤◌, [], IfOk, OnOk, MatchResult, None};
ghost use Rattle.mem_cells.specs.Part.{IsSamePart, room_kept};
ghost use Rattle.mem_values.specs.Start.{given_by};
ghost use Rattle.mem_calls.specs.Table.{IsFileTable};
ghost use Rattle.mem_calls.specs.Held.{HoldsPart};
ghost use Rattle.mem_calls.specs.Working.{IsWorking};
ghost use Rattle.mem_calls.specs.Changes.{IsReadyForRow};
ghost use Rattle.mem_calls.specs.Outcome.{IsRefusedMemory};

use crate::holding::let_all_go;
use crate::taking::{put, take_part};
use mem_values::{Cell, CellId, FileCore, FileShared, PartCell};
use sfs_base::{Name, NoMemory, NodeId};
use std::alloc::Global;
use tree_laws::Changes;

/// A name once more, room for one change, and the own log with room for it.
#[derive(Drop)]
pub(crate) struct Ready {
    pub(crate) name: Name,
    pub(crate) changes: Changes,
    pub(crate) part: Box<PartCell>,
}

// The name once more, and room for one change.
fn copied(alloc: Global, name: &Name) -> Result<(Name, Changes), NoMemory>
    ensures name { IfOk result (λ two. two.0 ≡ name.now) }
    ensures none { IfOk result (λ two. two.1.items ≡ []) }
    ensures spare { IfOk result (λ two. 1 ≤ two.1.spare) }
{
    let name = name.copy()?;
    let mut changes = Changes::new(alloc);
    changes.reserve(1)?;
    Ok((name, changes))
}

// The log with room for one more change of a directory.
fn with_room(part: Box<PartCell>, dir: NodeId) -> (Box<PartCell>, Result<(), NoMemory>)
    ensures same { IsSamePart part.value.log result.0.value.log }
    ensures made { result.0.value.made ≡ part.value.made }
    ensures room { OnOk result.1 (1 ≤ room_kept result.0.value.log dir.0) }
{
    let mut part = part;
    let outcome = part.log.reserve(dir, 1);
    (part, outcome)
}

/// Makes ready for the change of a row of a directory. Where it is refused memory the call is given up.
pub(crate) fn make_ready(
    alloc: Global,
    shared: &FileShared,
    core: &mut FileCore,
    nodes: u32,
    dir: NodeId,
    name: &Name,
) -> Result<Ready, NoMemory>
    requires table { IsFileTable shared.now nodes }
    requires work { IsWorking (given_by shared.now) shared.now core.old }
    requires answered { core.old.waiting ≡ None }
    requires part { HoldsPart nodes core.old }
    ensures { MatchResult result (λ ready. IsReadyForRow nodes dir name.now core.old ready core.new) (λ _. IsRefusedMemory shared.now core.old core.new) }
{
    let (name, changes) = match copied(alloc, name) {
        Ok(copied) => copied,
        Err(fault) => {
            let_all_go(shared, core);
            return Err(fault);
        }
    };
    let (part, outcome) = with_room(take_part(core, nodes), dir);
    match outcome {
        Ok(()) => Ok(Ready {
            name,
            changes,
            part,
        }),
        Err(fault) => {
            let cell = CellId::Part {
                core: core.number(),
            };
            put(core, nodes, cell, Cell::Part { part });
            core.let_go(shared, 0);
            Err(fault)
        }
    }
}
