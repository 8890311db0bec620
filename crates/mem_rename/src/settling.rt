// A core comes to hold all that its rename asks for.
ghost use Rattle.std.specs.Prelude.{◌≡◌, ◌≤◌, MatchResult};
ghost use Rattle.stamp_table.specs.Table.{IsBetweenCalls};
ghost use Rattle.mem_values.specs.Start.{given_by};
ghost use Rattle.mem_calls.specs.Table.{IsFileTable};
ghost use Rattle.mem_calls.specs.Outcome.{IsRefusedMemory};
ghost use Rattle.mem_rename.specs.Sights.{rename_by};
ghost use Rattle.mem_rename.specs.Decisions.{verdict_of};
ghost use Rattle.mem_rename.specs.Holding.{HoldsCells};
ghost use Rattle.mem_rename.specs.Plans.{asked_cells};
ghost use Rattle.mem_rename.specs.Ready.{AreSidesWithin};
ghost use Rattle.mem_rename.specs.Rounds.{KeepsLook, SettlesRename, sight_settled};

use crate::looking::{Decision, Look, decide};
use crate::plans::Plan;
use crate::renaming::RENAME_CELLS;
use crate::rounds::{give_up, hold_round};
use crate::sides::Move;
use crate::sights::{next_plan, reads_in};
use mem_calls::hold_part;
use mem_values::{FileCore, FileShared};
use sfs_base::{Gate, NoMemory, NodeId};
use std::alloc::Global;
use std::sync::Wait;

/// By what plan a core holds the cells of its rename, what the two buckets tell, and the directories above the new one.
#[derive(Drop)]
pub(crate) struct Settled {
    pub(crate) plan: Plan,
    pub(crate) look: Look,
    pub(crate) above: Vec<NodeId>,
}

/// Holds all that a rename asks for by what is held: it begins again as long as that is more than the plan has, or the way up broke off.
/// Where it begins again it has let go of all, and made no call.
pub(crate) fn hold_for_rename<R: Wait, G: Gate>(
    rt: &R,
    alloc: Global,
    shared: &FileShared,
    core: &mut FileCore,
    nodes: u32,
    move_: &Move,
    gate: &G,
) -> Result<Settled, NoMemory>
    requires table { IsFileTable shared.now nodes }
    requires core { IsBetweenCalls shared.now core.old }
    requires within { AreSidesWithin nodes move_.now }
    requires room { RENAME_CELLS ≤ core.old.room }
    ensures { MatchResult result
        (λ settled. SettlesRename (given_by shared.now) shared.now nodes move_.now settled core.old core.new)
        (λ fault. IsRefusedMemory shared.now core.old core.new) }
{
    let mut plan = Plan::none();
    for _ in rt.forever() {
        let Some(above) = hold_round(rt, alloc, shared, core, nodes, move_, plan)? else {
            plan = Plan::none();
            continue;
        };
        let (look, next) = next_plan(core, nodes, move_, plan);
        if next.is(plan) {
            hold_part(rt, shared, core, nodes, gate);
            return Ok(Settled { plan, look, above });
        }
        give_up(shared, core);
        plan = next;
    }
    unreachable!()
}

/// What a rename does by what is held.
pub(crate) fn decide_in(core: &FileCore, nodes: u32, move_: &Move, settled: &Settled) -> Decision
    requires held { HoldsCells nodes core.now.held (asked_cells move_.now settled.now.plan) }
    requires look { KeepsLook nodes core.now.held move_.now settled.now }
    ensures { rename_by (sight_settled nodes core.now.held move_.now settled.now) move_.now ≡ verdict_of move_.now result }
{
    let reads = reads_in(
        core,
        nodes,
        move_,
        settled.plan,
        settled.look,
        &settled.above,
    );
    decide(settled.look, reads, move_)
}
