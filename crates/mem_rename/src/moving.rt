// A rename by which a child moves: ready, stamped, and let go.
ghost use Rattle.std.specs.Prelude.{◌≡◌, ◌<◌, map, Some, MatchResult, cond, true, IsSome, []};
ghost use Rattle.tree_laws.specs.NameRow.{node_number};
ghost use Rattle.tree_laws.specs.Effect.{Moves as MovesEffect};
ghost use Rattle.tree_laws.specs.Verdict.{done};
ghost use Rattle.tree_laws.specs.declared.reply.Reply.TheVariants as reply;
ghost use Rattle.mem_values.specs.Start.{given_by};
ghost use Rattle.mem_values.specs.declared.cell_id.CellId.TheVariants as id;
ghost use Rattle.mem_calls.specs.Table.{IsFileTable};
ghost use Rattle.mem_calls.specs.Held.{value_held};
ghost use Rattle.mem_calls.specs.Outcome.{IsAnswered, IsRefusedMemory};
ghost use Rattle.mem_rename.specs.Sights.{rename_call, rename_by};
ghost use Rattle.mem_rename.specs.Moving.{less_one, at_file, bucket_moved, CanChange, ChangesHeld, SetsLock};
ghost use Rattle.mem_rename.specs.Ready.{AreSidesWithin, HoldsRename};
ghost use Rattle.mem_rename.specs.Rounds.{IsPlanWithin, KeepsLook, sight_settled, way_read};
ghost use Rattle.mem_rename.specs.Shifts.{IsCopiedMove};

use crate::changing::{all_stand, lower_links, remove_row};
use crate::plans::Plan;
use crate::readying::prepare;
use crate::settling::Settled;
use crate::shifts::{Copied, Shift, shifted};
use crate::sides::Move;
use mem_calls::{add_entry, put};
use mem_values::{Cell, CellId, FileCore, FileShared, TreeLock};
use sfs_base::{NoMemory, NodeId, NodeList, Stamp};
use std::alloc::Global;
use tree_laws::{Ancestors, Reply};

// What changes of the buckets besides the new row, and of the file that is replaced.
fn change_held(core: &mut FileCore, nodes: u32, move_: &Move, plan: Plan)
    requires within { AreSidesWithin nodes move_.now }
    requires plan { IsPlanWithin nodes plan }
    requires held { CanChange nodes move_.now plan core.old.held }
    ensures { ChangesHeld nodes (bucket_moved move_.now plan) (at_file plan.file less_one) core.old core.new }
{
    remove_row(core, nodes, move_);
    all_stand(core, nodes, plan.directory, None);
    all_stand(core, nodes, plan.comes, Some(move_.to_directory));
    if let Some(node) = plan.file {
        lower_links(core, nodes, node);
    }
}

// The lock gets the stamp, where a directory came to another one.
fn set_lock(core: &mut FileCore, nodes: u32, comes: bool, stamp: Stamp)
    requires { comes ≡ true → IsSome (value_held nodes core.old.held id.Lock) }
    ensures { SetsLock nodes comes stamp core.old core.new }
{
    if comes {
        let lock = TreeLock { moved: Some(stamp) };
        put(core, nodes, CellId::Lock, Cell::Lock { lock });
    }
}

// The directories above, where a directory comes to another one.
fn way_of(alloc: Global, comes: bool, above: Vec<NodeId>) -> Ancestors
    ensures { result ≡ cond comes (map node_number above.items) [] }
{
    if comes {
        Ancestors::new(NodeList::from_vec(above))
    } else {
        Ancestors::none(alloc)
    }
}

/// Makes ready for a child to move, changes what is held, stamps the rename, sets the lock where a directory comes to another one, counts
/// the entry, and lets go of all cells. Where it is refused memory the call is given up before its stamp.
pub(crate) fn move_child(
    alloc: Global,
    shared: &FileShared,
    core: &mut FileCore,
    nodes: u32,
    move_: Move,
    settled: Settled,
    copied: Copied,
    child: NodeId,
) -> Result<(), NoMemory>
    requires table { IsFileTable shared.now nodes }
    requires within { AreSidesWithin nodes move_ }
    requires plan { IsPlanWithin nodes settled.plan }
    requires ready { HoldsRename (given_by shared.now) shared.now nodes move_ settled.plan (way_read settled) core.old }
    requires look { KeepsLook nodes core.old.held move_ settled }
    requires copied { IsCopiedMove move_ copied }
    requires spare { 0 < core.old.spare }
    requires moves { rename_by (sight_settled nodes core.old.held move_ settled) move_
        ≡ done (MovesEffect move_.directory.0 move_.name move_.to_directory.0 move_.to_name child.0) }
    ensures { MatchResult result (λ _. IsAnswered shared.now (rename_call move_) reply.Ok core.old core.new) (λ _. IsRefusedMemory shared.now core.old core.new) }
{
    core.calls_are_few();
    let Settled { plan, look, above } = settled;
    let comes = plan.comes.is_some();
    let shift = Shift::by(look, &move_, child);
    let noted = prepare(shared, core, nodes, &move_, shift, copied)?;
    change_held(core, nodes, &move_, plan);
    let way = way_of(alloc, comes, above);
    let stamp = core.stamp(shared, move_.into_call(), Reply::Ok);
    set_lock(core, nodes, comes, stamp);
    add_entry(core, nodes, shifted(alloc, noted, stamp, shift, way));
    core.let_go(shared, 0);
    Ok(())
}
