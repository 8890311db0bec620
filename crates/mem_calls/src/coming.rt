// What may be refused memory of a call by which a row comes, done before its stamp.
ghost use Rattle.std.specs.Prelude.{MatchResult, ◌≡◌, None};
ghost use Rattle.mem_values.specs.Start.{given_by};
ghost use Rattle.mem_calls.specs.Table.{IsFileTable};
ghost use Rattle.mem_calls.specs.Held.{HoldsPart};
ghost use Rattle.mem_calls.specs.Working.{IsWorking};
ghost use Rattle.mem_calls.specs.Changes.{IsFreePlace, IsComing};
ghost use Rattle.mem_calls.specs.Outcome.{IsRefusedMemory};

use crate::ready::{Ready, make_ready};
use crate::rows::with_row;
use crate::taking::{put_bucket, put_part, take_bucket};
use mem_values::{Bucket, FileCore, FileShared};
use sfs_base::{Kind, Name, NoMemory, NodeId, bucket_of};
use std::alloc::Global;

/// The bucket with the row, and what else was made ready.
#[derive(Drop)]
pub(crate) struct Coming {
    pub(crate) bucket: Box<Bucket>,
    pub(crate) ready: Ready,
}

/// Makes ready for a row that comes, and takes its bucket out of its cell. Where it is refused memory the call is given up.
pub(crate) fn make_coming(
    alloc: Global,
    shared: &FileShared,
    core: &mut FileCore,
    nodes: u32,
    dir: NodeId,
    name: &Name,
    child: (NodeId, Kind),
) -> Result<Coming, NoMemory>
    requires table { IsFileTable shared.now nodes }
    requires work { IsWorking (given_by shared.now) shared.now core.old }
    requires answered { core.old.waiting ≡ None }
    requires part { HoldsPart nodes core.old }
    requires free { IsFreePlace nodes core.old.held dir name.now }
    ensures { MatchResult result (λ coming. IsComing nodes dir name.now child.0.0 child.1 core.old coming core.new)
        (λ _. IsRefusedMemory shared.now core.old core.new) }
{
    let number = bucket_of(name);
    let ready = make_ready(alloc, shared, core, nodes, dir, name)?;
    let taken = take_bucket(core, nodes, dir, number);
    let (bucket, outcome) = with_row(taken, name, child.0, child.1);
    match outcome {
        Ok(()) => Ok(Coming { bucket, ready }),
        Err(fault) => {
            put_bucket(core, nodes, dir, number, bucket);
            put_part(core, nodes, ready.part);
            core.let_go(shared, 0);
            Err(fault)
        }
    }
}
