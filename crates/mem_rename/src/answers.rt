// A rename that changes nothing: it is stamped with its answer.
ghost use Rattle.std.specs.Prelude.{◌≡◌, ◌<◌};
ghost use Rattle.tree_laws.specs.Verdict.{answered};
ghost use Rattle.mem_values.specs.Start.{given_by};
ghost use Rattle.mem_calls.specs.Table.{IsFileTable};
ghost use Rattle.mem_calls.specs.Reply.{reply_of};
ghost use Rattle.mem_calls.specs.Outcome.{IsAnswered};
ghost use Rattle.mem_rename.specs.Sights.{rename_call, rename_by};
ghost use Rattle.mem_rename.specs.Ready.{AreSidesWithin, HoldsRename};
ghost use Rattle.mem_rename.specs.Rounds.{sight_settled, way_read};

use crate::settling::Settled;
use crate::sides::Move;
use mem_calls::{Short, add_entry};
use mem_values::{FileCore, FileShared};
use std::alloc::Global;
use tree_laws::Changes;

/// Stamps a rename that changes nothing with its answer, counts its entry, and lets go of all cells. It takes no memory.
pub(crate) fn answer(
    alloc: Global,
    shared: &FileShared,
    core: &mut FileCore,
    nodes: u32,
    move_: Move,
    settled: Settled,
    short: Short,
)
    requires table { IsFileTable shared.now nodes }
    requires within { AreSidesWithin nodes move_ }
    requires ready { HoldsRename (given_by shared.now) shared.now nodes move_ settled.plan (way_read settled) core.old }
    requires spare { 0 < core.old.spare }
    requires answers { rename_by (sight_settled nodes core.old.held move_ settled) move_ ≡ answered (reply_of short) }
    ensures { IsAnswered shared.now (rename_call move_) (reply_of short) core.old core.new }
{
    let _settled = settled;
    core.calls_are_few();
    core.stamp(shared, move_.into_call(), short.reply());
    add_entry(core, nodes, Changes::new(alloc));
    core.let_go(shared, 0);
}
