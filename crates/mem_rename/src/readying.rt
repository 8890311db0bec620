// What may be refused memory of a child that moves while its cells are held, done before the stamp: the new row last, so that nothing has to be
// taken back.
ghost use Rattle.std.specs.Prelude.{◌≡◌, ◌≤◌, IsSome, OnOk, MatchResult, None};
ghost use Rattle.sfs_base.specs.Name.{bucket};
ghost use Rattle.mem_cells.specs.Part.{IsSamePart, room_kept};
ghost use Rattle.mem_values.specs.Start.{given_by};
ghost use Rattle.mem_calls.specs.Table.{IsFileTable};
ghost use Rattle.mem_calls.specs.Held.{bucket_held, HoldsPart};
ghost use Rattle.mem_calls.specs.Outcome.{IsRefusedMemory};
ghost use Rattle.mem_calls.specs.Working.{IsWorking};
ghost use Rattle.mem_rename.specs.Moving.{KeepsPart, MakesRoom, IsPrepared, ShowsThere};
ghost use Rattle.mem_rename.specs.Ready.{AreSidesWithin, bucket_or};
ghost use Rattle.mem_rename.specs.Shifts.{IsCopiedMove};

use crate::changing::add_row;
use crate::rounds::give_up;
use crate::shifts::{Copied, Noted, Shift};
use crate::sides::Move;
use mem_calls::{put, take_part};
use mem_cells::LogPart;
use mem_values::{Cell, CellId, FileCore, FileShared, PartCell};
use sfs_base::NoMemory;

// Room for three more changes of either directory.
fn reserve_both(log: &mut LogPart, move_: &Move) -> Result<(), NoMemory>
    ensures same { IsSamePart log.old log.new }
    ensures old { OnOk result (3 ≤ room_kept log.new move_.now.directory.0) }
    ensures new { OnOk result (3 ≤ room_kept log.new move_.now.to_directory.0) }
{
    log.reserve(move_.directory, 3)?;
    log.reserve(move_.to_directory, 3)
}

// The log with room for three more changes of either directory.
fn with_room(part: Box<PartCell>, move_: &Move) -> (Box<PartCell>, Result<(), NoMemory>)
    ensures same { IsSamePart part.value.log result.0.value.log }
    ensures made { result.0.value.made ≡ part.value.made }
    ensures old { OnOk result.1 (3 ≤ room_kept result.0.value.log move_.now.directory.0) }
    ensures new { OnOk result.1 (3 ≤ room_kept result.0.value.log move_.now.to_directory.0) }
{
    let mut part = part;
    let outcome = reserve_both(&mut part.log, move_);
    (part, outcome)
}

// The own log gets room for the changes.
fn reserve_log(core: &mut FileCore, nodes: u32, move_: &Move) -> Result<(), NoMemory>
    requires { HoldsPart nodes core.old }
    ensures { MatchResult result (λ _. MakesRoom nodes move_.now core.old core.new) (λ _. KeepsPart nodes core.old core.new) }
{
    let (part, outcome) = with_room(take_part(core, nodes), move_);
    let cell = CellId::Part {
        core: core.number(),
    };
    put(core, nodes, cell, Cell::Part { part });
    outcome
}

/// Makes ready for a child to move. Where it is refused memory the call is given up.
pub(crate) fn prepare(
    shared: &FileShared,
    core: &mut FileCore,
    nodes: u32,
    move_: &Move,
    shift: Shift,
    copied: Copied,
) -> Result<Noted, NoMemory>
    requires table { IsFileTable shared.now nodes }
    requires work { IsWorking (given_by shared.now) shared.now core.old }
    requires answered { core.old.waiting ≡ None }
    requires within { AreSidesWithin nodes move_.now }
    requires part { HoldsPart nodes core.old }
    requires held { IsSome (bucket_held nodes core.old.held move_.now.to_directory (bucket move_.now.to_name)) }
    requires there { ShowsThere move_.now.to_name shift (bucket_or (bucket_held nodes core.old.held move_.now.to_directory (bucket move_.now.to_name))) }
    requires copied { IsCopiedMove move_.now copied }
    ensures { MatchResult result (λ noted. IsPrepared nodes move_.now shift core.old noted core.new) (λ _. IsRefusedMemory shared.now core.old core.new) }
{
    let Copied {
        changes,
        old,
        new,
        row,
    } = copied;
    if let Err(fault) = reserve_log(core, nodes, move_) {
        give_up(shared, core);
        return Err(fault);
    }
    match add_row(core, nodes, move_, shift, row) {
        Ok(gone) => Ok(Noted {
            changes,
            old,
            new,
            gone,
        }),
        Err(fault) => {
            give_up(shared, core);
            Err(fault)
        }
    }
}
