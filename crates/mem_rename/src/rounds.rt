// All that a rename asks for by a plan but for its log, held; or nothing, where it has to begin again or was refused memory.
ghost use Rattle.std.specs.Prelude.{◌≡◌, ◌+◌, ◌<◌, ◌≤◌, true, map, None, IfOk, IfErr, MatchOption};
ghost use Rattle.tree_laws.specs.NameRow.{node_number};
ghost use Rattle.stamp_table.specs.Ascending.{LiesAbove};
ghost use Rattle.stamp_table.specs.Table.{IsBetweenCalls};
ghost use Rattle.mem_values.specs.Start.{given_by};
ghost use Rattle.mem_calls.specs.Table.{IsFileTable};
ghost use Rattle.mem_calls.specs.Outcome.{IsRefusedMemory};
ghost use Rattle.mem_calls.specs.Working.{IsWorking, WorksOn};
ghost use Rattle.mem_rename.specs.Ready.{AreSidesWithin};
ghost use Rattle.mem_rename.specs.Rounds.{IsPlanWithin, HoldsRound};
ghost use Rattle.mem_rename.specs.Ways.{HoldsLock, HasReadAll};

use crate::asked::{asked, both_buckets, listed};
use crate::holding::hold_asked;
use crate::plans::Plan;
use crate::renaming::RENAME_CELLS;
use crate::sides::Move;
use crate::ways::read_way;
use mem_calls::hold_more;
use mem_values::{CellId, FileCore, FileShared};
use sfs_base::{NoMemory, NodeId};
use std::alloc::Global;
use std::sync::Wait;

/// Lets go of all. No call is made.
pub(crate) fn give_up(shared: &FileShared, core: &mut FileCore)
    requires work { IsWorking (given_by shared.now) shared.now core.old }
    requires answered { core.old.waiting ≡ None }
    ensures { IsRefusedMemory shared.now core.old core.new }
{
    core.let_go(shared, 0);
}

// Holds the lock where a directory would come to another one, and reads the way up. None, where that breaks off.
fn hold_lock<R: Wait>(
    rt: &R,
    alloc: Global,
    shared: &FileShared,
    core: &mut FileCore,
    nodes: u32,
    node: NodeId,
    comes: bool,
) -> Result<Option<Vec<NodeId>>, NoMemory>
    requires table { IsFileTable shared.now nodes }
    requires core { IsBetweenCalls shared.now core.old }
    requires node { node.0 < nodes }
    requires room { 2 ≤ core.old.room }
    ensures work { IsWorking (given_by shared.now) shared.now core.new }
    ensures on { WorksOn core.old core.new }
    ensures low { LiesAbove 16 core.new.view.held }
    ensures room { core.old.room ≤ core.new.room + 1 }
    ensures lock { comes ≡ true → HoldsLock core.new }
    ensures way { IfOk result (λ way. MatchOption way Unit (λ above. comes ≡ true → HasReadAll core.new node.0 (map node_number above.items))) }
{
    if !comes {
        return Ok(Some(Vec::new(alloc)));
    }
    hold_more(rt, shared, core, nodes, CellId::Lock);
    read_way(rt, alloc, shared, core, nodes, node)
}

/// Holds all that a rename asks for by a plan but for its log, and reads the way up where it needs that. None, where it has to begin again.
pub(crate) fn hold_round<R: Wait>(
    rt: &R,
    alloc: Global,
    shared: &FileShared,
    core: &mut FileCore,
    nodes: u32,
    move_: &Move,
    plan: Plan,
) -> Result<Option<Vec<NodeId>>, NoMemory>
    requires table { IsFileTable shared.now nodes }
    requires core { IsBetweenCalls shared.now core.old }
    requires within { AreSidesWithin nodes move_.now }
    requires plan { IsPlanWithin nodes plan }
    requires room { RENAME_CELLS ≤ core.old.room }
    ensures held { IfOk result (λ way. MatchOption way
        (IsRefusedMemory shared.now core.old core.new)
        (λ above. HoldsRound (given_by shared.now) shared.now nodes move_.now plan (map node_number above.items) core.old core.new)) }
    ensures refused { IfErr result (λ fault. IsRefusedMemory shared.now core.old core.new) }
{
    let both = both_buckets(move_);
    let listed = listed(alloc, &both, move_, plan)?;
    let comes = plan.comes.is_some();
    let to = move_.to_directory;
    match hold_lock(rt, alloc, shared, core, nodes, to, comes) {
        Ok(Some(above)) => {
            hold_asked(rt, shared, core, nodes, asked(&both, &listed, plan));
            Ok(Some(above))
        }
        other => {
            give_up(shared, core);
            other
        }
    }
}
