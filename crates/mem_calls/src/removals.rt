// Rows that go.
ghost use Rattle.std.specs.Prelude.{◌≡◌, ◌<◌, ◌≤◌, [], IsSome, IfSome, IfOk, MatchBool, MatchResult, None};
ghost use Rattle.sfs_base.specs.Name.{bucket};
ghost use Rattle.sfs_base.specs.declared.numbers.NodeId.{NodeId as Node};
ghost use Rattle.tree_laws.specs.Effect.{Removes};
ghost use Rattle.tree_laws.specs.Verdict.{verdict, refused, done};
ghost use Rattle.tree_laws.specs.declared.reply.Reply.TheVariants as reply;
ghost use Rattle.stamp_table.specs.Table.{IsBetweenCalls};
ghost use Rattle.mem_values.specs.Start.{given_by};
ghost use Rattle.mem_values.specs.Places.{node_count};
ghost use Rattle.mem_calls.specs.Table.{IsFileTable};
ghost use Rattle.mem_calls.specs.Held.{bucket_held, file_held, HoldsDirectory, HoldsPart, CanMeet, InEach};
ghost use Rattle.mem_calls.specs.Working.{IsWorking, WorksOn};
ghost use Rattle.mem_calls.specs.Changes.{NamesFile, HoldsNamed};
ghost use Rattle.mem_calls.specs.Outcome.{IsAnswered, IsRefusedMemory, ComesTo};

use crate::finish::finish;
use crate::held::{bucket_in, directory_fault_in, is_standing};
use crate::holding::{CALL_CELLS, hold_directory, hold_more, hold_part, let_all_go};
use crate::ready::make_ready;
use crate::rows::{lower_links, remove_row, removed_row};
use crate::table::TreeTable;
use crate::taking::{put, with_entry};
use mem_values::{Cell, CellId, FileCore, FileShared};
use sfs_base::{Gate, Kind, Name, NoMemory, NodeId, bucket_of};
use std::alloc::Global;
use std::sync::Wait;
use tree_laws::{Call, Code, Reply};

// The file that a row of a bucket names which is held, where the directory stands.
fn file_named(core: &FileCore, nodes: u32, dir: NodeId, name: &Name) -> Option<NodeId>
    requires counted { nodes ≡ node_count core.now.view.first }
    requires held { dir.0 < nodes → IsSome (bucket_held nodes core.now.held dir (bucket name.now)) }
    requires met { dir.0 < nodes → CanMeet core.now }
    ensures names { IfSome result (λ child. NamesFile nodes core.now.held dir (bucket name.now) name.now child) }
    ensures all { (child : Node) → NamesFile nodes core.now.held dir (bucket name.now) name.now child → IsSome result }
    ensures within { IfSome result (λ child. child.0 < nodes) }
{
    if dir.0 >= nodes {
        return None;
    }
    let bucket = bucket_in(core, nodes, dir, bucket_of(name));
    if !is_standing(dir, bucket) || bucket.directories.get(name).is_some() {
        return None;
    }
    bucket.rows.get(name)
}

// Holds the place of a name, and where its row names a file also that. Where the file lies below the place, it lets go, holds both in
// their order, and looks again whether the row names this file; if not, it holds nothing.
fn try_hold_named<R: Wait>(
    rt: &R,
    shared: &FileShared,
    core: &mut FileCore,
    nodes: u32,
    dir: NodeId,
    name: &Name,
) -> bool
    requires table { IsFileTable shared.now nodes }
    requires work { IsWorking (given_by shared.now) shared.now core.old }
    requires none { (core.old.held ≡ []) × (core.old.view.held ≡ []) }
    requires room { CALL_CELLS ≤ core.old.room }
    ensures work { IsWorking (given_by shared.now) shared.now core.new }
    ensures on { WorksOn core.old core.new }
    ensures held { MatchBool result (HoldsNamed nodes dir name.now core.new) ((core.new.held ≡ []) × (core.new.view.held ≡ [])) }
{
    let number = bucket_of(name);
    hold_directory(rt, shared, core, nodes, dir, number);
    let Some(child) = file_named(core, nodes, dir, name) else {
        return true;
    };
    if child.0 >= dir.0 {
        hold_more(rt, shared, core, nodes, CellId::File { node: child });
        return true;
    }
    let_all_go(shared, core);
    let bucket = CellId::Bucket {
        node: dir,
        bucket: number,
    };
    hold_more(rt, shared, core, nodes, CellId::File { node: child });
    hold_more(rt, shared, core, nodes, bucket);
    if let Some(again) = file_named(core, nodes, dir, name) {
        if again.0 == child.0 {
            return true;
        }
    }
    let_all_go(shared, core);
    false
}

// Holds the place of a name, and where its row names a file also that.
fn hold_named<R: Wait>(
    rt: &R,
    shared: &FileShared,
    core: &mut FileCore,
    nodes: u32,
    dir: NodeId,
    name: &Name,
)
    requires table { IsFileTable shared.now nodes }
    requires work { IsWorking (given_by shared.now) shared.now core.old }
    requires none { (core.old.held ≡ []) × (core.old.view.held ≡ []) }
    requires room { CALL_CELLS ≤ core.old.room }
    ensures work { IsWorking (given_by shared.now) shared.now core.new }
    ensures on { WorksOn core.old core.new }
    ensures held { HoldsNamed nodes dir name.now core.new }
{
    for _ in rt.forever() {
        if try_hold_named(rt, shared, core, nodes, dir, name) {
            return;
        }
    }
    unreachable!()
}

// The file whose row goes, or why none does, by what is held.
fn unlink_in(core: &FileCore, nodes: u32, dir: NodeId, name: &Name) -> Result<NodeId, Code>
    requires counted { nodes ≡ node_count core.now.view.first }
    requires held { HoldsDirectory nodes core.now.held dir (bucket name.now) }
    ensures names { IfOk result (λ child. NamesFile nodes core.now.held dir (bucket name.now) name.now child) }
    ensures due { MatchResult result
        (λ child. InEach core.now (λ tree. verdict tree core.now.view.core (Call.Unlink dir name.now) ≡ done (Removes dir.0 name.now child.0)))
        (λ code. InEach core.now (λ tree. verdict tree core.now.view.core (Call.Unlink dir name.now) ≡ refused code)) }
{
    let number = bucket_of(name);
    if let Some(code) = directory_fault_in(core, nodes, dir, number) {
        return Err(code);
    }
    let bucket = bucket_in(core, nodes, dir, number);
    let Some(child) = bucket.rows.get(name) else {
        return Err(Code::NoEntry);
    };
    if bucket.directories.get(name).is_some() {
        return Err(Code::NotPermitted);
    }
    Ok(child)
}

// Does a removal of a file's row that nothing refuses but want of memory.
fn finish_unlink(
    alloc: Global,
    shared: &FileShared,
    core: &mut FileCore,
    nodes: u32,
    dir: NodeId,
    name: Name,
    child: NodeId,
) -> Result<(), NoMemory>
    requires table { IsFileTable shared.now nodes }
    requires work { IsWorking (given_by shared.now) shared.now core.old }
    requires answered { core.old.waiting ≡ None }
    requires part { HoldsPart nodes core.old }
    requires spare { 0 < core.old.spare }
    requires names { NamesFile nodes core.old.held dir (bucket name) name child }
    requires held { (child.0 < nodes) × IsSome (file_held nodes core.old.held child) }
    requires due { InEach core.old (λ tree. verdict tree core.old.view.core (Call.Unlink dir name) ≡ done (Removes dir.0 name child.0)) }
    ensures { MatchResult result (λ _. IsAnswered shared.now (Call.Unlink dir name) reply.Ok core.old core.new) (λ _. IsRefusedMemory shared.now core.old core.new) }
{
    core.calls_are_few();
    let number = bucket_of(&name);
    let ready = make_ready(alloc, shared, core, nodes, dir, &name)?;
    let stamp = core.stamp(shared, Call::Unlink { dir, name }, Reply::Ok);
    remove_row(core, nodes, dir, number, &ready.name);
    lower_links(core, nodes, child);
    let cell = CellId::Part {
        core: core.number(),
    };
    let change = removed_row(
        alloc,
        ready.changes,
        stamp,
        dir,
        ready.name,
        (child, Kind::File),
    );
    let part = with_entry(ready.part, change);
    put(core, nodes, cell, Cell::Part { part });
    core.let_go(shared, 0);
    Ok(())
}

/// Removes the row of a file. It holds the bucket of the name, where the directory does not stand also its file, and the file that the
/// row names. It may wait. Only want of memory refuses it.
pub fn unlink<R: Wait, G: Gate>(
    rt: &R,
    alloc: Global,
    table: &TreeTable,
    core: &mut FileCore,
    dir: NodeId,
    name: Name,
    gate: &G,
) -> Result<Reply, NoMemory>
    requires core { IsBetweenCalls table.now core.old }
    requires spare { 0 < core.old.spare }
    requires room { CALL_CELLS ≤ core.old.room }
    ensures { ComesTo table.now (Call.Unlink dir name) core.old core.new result }
{
    let shared = table.shared();
    let nodes = table.nodes();
    hold_named(rt, shared, core, nodes, dir, &name);
    hold_part(rt, shared, core, nodes, gate);
    match unlink_in(core, nodes, dir, &name) {
        Ok(child) => {
            finish_unlink(alloc, shared, core, nodes, dir, name, child)?;
            Ok(Reply::Ok)
        }
        Err(code) => {
            let call = Call::Unlink { dir, name };
            finish(alloc, shared, core, nodes, call, Reply::Error { code });
            Ok(Reply::Error { code })
        }
    }
}
