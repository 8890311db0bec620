// The stamp of a call that changes nothing, and its end.
ghost use Rattle.std.specs.Prelude.{◌≡◌, ◌<◌, false, None};
ghost use Rattle.tree_laws.specs.Verdict.{verdict, answered};
ghost use Rattle.stamp_table.specs.Answered.{asks_fsync};
ghost use Rattle.mem_values.specs.Start.{given_by};
ghost use Rattle.mem_calls.specs.Table.{IsFileTable};
ghost use Rattle.mem_calls.specs.Held.{HoldsPart, InEach};
ghost use Rattle.mem_calls.specs.Working.{IsWorking};
ghost use Rattle.mem_calls.specs.Outcome.{IsAnswered};

use crate::taking::add_entry;
use mem_values::{FileCore, FileShared};
use std::alloc::Global;
use tree_laws::{Call, Changes, Reply};

/// Stamps a call that changes nothing, counts its entry, and lets go of all cells. It takes no memory.
pub fn finish(
    alloc: Global,
    shared: &FileShared,
    core: &mut FileCore,
    nodes: u32,
    call: Call,
    reply: Reply,
)
    requires table { IsFileTable shared.now nodes }
    requires work { IsWorking (given_by shared.now) shared.now core.old }
    requires answered { core.old.waiting ≡ None }
    requires part { HoldsPart nodes core.old }
    requires spare { 0 < core.old.spare }
    requires call { asks_fsync call ≡ false }
    requires due { InEach core.old (λ tree. verdict tree core.old.view.core call ≡ answered reply) }
    ensures { IsAnswered shared.now call reply core.old core.new }
{
    core.calls_are_few();
    core.stamp(shared, call, reply);
    add_entry(core, nodes, Changes::new(alloc));
    core.let_go(shared, 0);
}
