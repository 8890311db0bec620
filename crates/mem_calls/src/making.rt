// What a creation answers and does, with what it needs held.
ghost use Rattle.std.specs.Prelude.{◌≡◌, ◌<◌, IfOk, MatchResult, None};
ghost use Rattle.tree_laws.specs.Verdict.{verdict, refused};
ghost use Rattle.tree_laws.specs.declared.reply.Reply.TheVariants as reply;
ghost use Rattle.mem_values.specs.Start.{given_by};
ghost use Rattle.mem_values.specs.Places.{node_count};
ghost use Rattle.mem_calls.specs.Table.{IsFileTable};
ghost use Rattle.mem_calls.specs.Held.{HoldsPart, CanMeet, InEach};
ghost use Rattle.mem_calls.specs.Working.{IsWorking};
ghost use Rattle.mem_calls.specs.Creations.{creates, HasNext, HoldsCreation, MayMake};
ghost use Rattle.mem_calls.specs.Outcome.{IsAnswered, IsRefusedMemory};

use crate::coming::make_coming;
use crate::held::{bucket_in, directory_fault_in};
use crate::links::BUCKET_ROWS;
use crate::rows::added_row;
use crate::settling::settle;
use crate::taking::{put_bucket, put_part, with_entry, with_node};
use mem_values::{FileCore, FileShared};
use sfs_base::{Kind, Name, NoMemory, NodeId, bucket_of};
use std::alloc::Global;
use tree_laws::{Call, Code, Reply};

/// The node that is made, or why none is, by what is held.
pub(crate) fn make_in(
    core: &FileCore,
    nodes: u32,
    dir: NodeId,
    name: &Name,
    kind: Kind,
    next: Option<NodeId>,
) -> Result<NodeId, Code>
    requires counted { nodes ≡ node_count core.now.view.first }
    requires met { CanMeet core.now }
    requires held { HoldsCreation nodes core.now.held dir name.now kind next }
    requires next { HasNext nodes core.now next }
    ensures due { MatchResult result
        (λ child. InEach core.now (λ tree. verdict tree core.now.view.core (Call.Make dir name.now kind) ≡ creates child dir name.now kind))
        (λ code. InEach core.now (λ tree. verdict tree core.now.view.core (Call.Make dir name.now kind) ≡ refused code)) }
    ensures may { IfOk result (λ child. MayMake nodes core.now dir name.now child kind) }
{
    let number = bucket_of(name);
    if let Some(code) = directory_fault_in(core, nodes, dir, number) {
        return Err(code);
    }
    let bucket = bucket_in(core, nodes, dir, number);
    if bucket.rows.get(name).is_some() {
        return Err(Code::Exists);
    }
    if bucket.rows.len() >= BUCKET_ROWS {
        return Err(Code::DirFull);
    }
    match next {
        Some(child) => Ok(child),
        None => Err(Code::NoNodes),
    }
}

/// Makes a node that nothing refuses but want of memory.
pub(crate) fn finish_make(
    alloc: Global,
    shared: &FileShared,
    core: &mut FileCore,
    nodes: u32,
    dir: NodeId,
    name: Name,
    child: (NodeId, Kind),
) -> Result<(), NoMemory>
    requires table { IsFileTable shared.now nodes }
    requires work { IsWorking (given_by shared.now) shared.now core.old }
    requires answered { core.old.waiting ≡ None }
    requires part { HoldsPart nodes core.old }
    requires spare { 0 < core.old.spare }
    requires may { MayMake nodes core.old dir name child.0 child.1 }
    requires due { InEach core.old (λ tree. verdict tree core.old.view.core (Call.Make dir name child.1) ≡ creates child.0 dir name child.1) }
    ensures { MatchResult result
        (λ _. IsAnswered shared.now (Call.Make dir name child.1) (reply.Node child.0 child.1) core.old core.new)
        (λ _. IsRefusedMemory shared.now core.old core.new) }
{
    core.calls_are_few();
    let number = bucket_of(&name);
    let (node, kind) = child;
    let coming = make_coming(alloc, shared, core, nodes, dir, &name, child)?;
    let call = Call::Make { dir, name, kind };
    let stamp = core.stamp(shared, call, Reply::Node { node, kind });
    put_bucket(core, nodes, dir, number, coming.bucket);
    settle(core, nodes, node, kind, dir);
    let ready = coming.ready;
    let change = added_row(alloc, ready.changes, stamp, dir, ready.name, child);
    put_part(core, nodes, with_node(with_entry(ready.part, change)));
    core.let_go(shared, 0);
    Ok(())
}
