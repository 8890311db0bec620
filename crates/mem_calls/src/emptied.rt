// Rows of empty directories, which go.
ghost use Rattle.std.specs.Prelude.{◌≡◌, ◌≢◌, ◌<◌, ◌≤◌, [], IsSome, IfSome, IfOk, MatchBool, MatchResult, None};
ghost use Rattle.sfs_base.specs.Name.{bucket};
ghost use Rattle.sfs_base.specs.declared.numbers.NodeId.{NodeId as Node};
ghost use Rattle.tree_laws.specs.Effect.{Removes};
ghost use Rattle.tree_laws.specs.Verdict.{verdict, refused, done};
ghost use Rattle.tree_laws.specs.declared.reply.Reply.TheVariants as reply;
ghost use Rattle.stamp_table.specs.Table.{IsBetweenCalls};
ghost use Rattle.mem_values.specs.Start.{given_by};
ghost use Rattle.mem_values.specs.Places.{node_count};
ghost use Rattle.mem_calls.specs.Table.{IsFileTable};
ghost use Rattle.mem_calls.specs.Held.{bucket_held, HoldsDirectory, HoldsPart, CanMeet, InEach};
ghost use Rattle.mem_calls.specs.Sums.{HoldsBuckets};
ghost use Rattle.mem_calls.specs.Working.{IsWorking, WorksOn};
ghost use Rattle.mem_calls.specs.Ends.{NamesDirectory, HoldsNamedBuckets, HoldsEnding};
ghost use Rattle.mem_calls.specs.Outcome.{IsAnswered, IsRefusedMemory, ComesTo};

use crate::finish::finish;
use crate::held::{bucket_in, directory_fault_in, is_standing};
use crate::holding::{
    CALL_CELLS, hold_all_buckets, hold_directory, hold_more, hold_part, let_all_go,
};
use crate::ready::make_ready;
use crate::rows::{remove_row, removed_row};
use crate::standing::place_directory;
use crate::status::directory_counts;
use crate::table::TreeTable;
use crate::taking::{put_part, with_entry};
use mem_values::{CellId, FileCore, FileShared};
use sfs_base::{Gate, Kind, Name, NoMemory, NodeId, bucket_of};
use std::alloc::Global;
use std::sync::Wait;
use tree_laws::{Call, Code, Reply};

// The directory that a row of a bucket names which is held, where the row's own directory stands.
fn directory_named(core: &FileCore, nodes: u32, dir: NodeId, name: &Name) -> Option<NodeId>
    requires counted { nodes ≡ node_count core.now.view.first }
    requires held { dir.0 < nodes → IsSome (bucket_held nodes core.now.held dir (bucket name.now)) }
    requires met { dir.0 < nodes → CanMeet core.now }
    ensures names { IfSome result (λ child. NamesDirectory nodes core.now.held dir (bucket name.now) name.now child) }
    ensures all { (child : Node) → NamesDirectory nodes core.now.held dir (bucket name.now) name.now child → IsSome result }
    ensures within { IfSome result (λ child. child.0 < nodes) }
    ensures apart { IfSome result (λ child. child.0 ≢ dir.0) }
{
    if dir.0 >= nodes {
        return None;
    }
    let bucket = bucket_in(core, nodes, dir, bucket_of(name));
    if !is_standing(dir, bucket) {
        return None;
    }
    bucket.directories.get(name)
}

// Holds the place of a name, and where its row names a directory also all buckets of that. Where they lie below the place, it lets go,
// holds both in their order, and looks again whether the row names this directory; if not, it holds nothing.
fn try_hold_ending<R: Wait>(
    rt: &R,
    shared: &FileShared,
    core: &mut FileCore,
    nodes: u32,
    dir: NodeId,
    name: &Name,
) -> bool
    requires table { IsFileTable shared.now nodes }
    requires work { IsWorking (given_by shared.now) shared.now core.old }
    requires none { (core.old.held ≡ []) × (core.old.view.held ≡ []) }
    requires room { CALL_CELLS ≤ core.old.room }
    ensures work { IsWorking (given_by shared.now) shared.now core.new }
    ensures on { WorksOn core.old core.new }
    ensures held { MatchBool result (HoldsEnding nodes dir name.now core.new) ((core.new.held ≡ []) × (core.new.view.held ≡ [])) }
{
    let number = bucket_of(name);
    hold_directory(rt, shared, core, nodes, dir, number);
    let Some(child) = directory_named(core, nodes, dir, name) else {
        return true;
    };
    if child.0 > dir.0 {
        hold_all_buckets(rt, shared, core, nodes, child);
        return true;
    }
    let_all_go(shared, core);
    hold_all_buckets(rt, shared, core, nodes, child);
    let bucket = CellId::Bucket {
        node: dir,
        bucket: number,
    };
    hold_more(rt, shared, core, nodes, bucket);
    if let Some(again) = directory_named(core, nodes, dir, name) {
        if again.0 == child.0 {
            return true;
        }
    }
    let_all_go(shared, core);
    false
}

// Holds the place of a name, and where its row names a directory also all buckets of that.
fn hold_ending<R: Wait>(
    rt: &R,
    shared: &FileShared,
    core: &mut FileCore,
    nodes: u32,
    dir: NodeId,
    name: &Name,
)
    requires table { IsFileTable shared.now nodes }
    requires work { IsWorking (given_by shared.now) shared.now core.old }
    requires none { (core.old.held ≡ []) × (core.old.view.held ≡ []) }
    requires room { CALL_CELLS ≤ core.old.room }
    ensures work { IsWorking (given_by shared.now) shared.now core.new }
    ensures on { WorksOn core.old core.new }
    ensures held { HoldsEnding nodes dir name.now core.new }
{
    for _ in rt.forever() {
        if try_hold_ending(rt, shared, core, nodes, dir, name) {
            return;
        }
    }
    unreachable!()
}

// The directory that ends, or why none does, by what is held.
fn rmdir_in(core: &FileCore, nodes: u32, dir: NodeId, name: &Name) -> Result<NodeId, Code>
    requires counted { nodes ≡ node_count core.now.view.first }
    requires met { CanMeet core.now }
    requires held { HoldsDirectory nodes core.now.held dir (bucket name.now) }
    requires child { HoldsNamedBuckets nodes core.now.held dir name.now }
    ensures names { IfOk result (λ child. NamesDirectory nodes core.now.held dir (bucket name.now) name.now child) }
    ensures due { MatchResult result
        (λ child. InEach core.now (λ tree. verdict tree core.now.view.core (Call.Rmdir dir name.now) ≡ done (Removes dir.0 name.now child.0)))
        (λ code. InEach core.now (λ tree. verdict tree core.now.view.core (Call.Rmdir dir name.now) ≡ refused code)) }
{
    let number = bucket_of(name);
    if let Some(code) = directory_fault_in(core, nodes, dir, number) {
        return Err(code);
    }
    let bucket = bucket_in(core, nodes, dir, number);
    if bucket.rows.get(name).is_none() {
        return Err(Code::NoEntry);
    }
    let Some(child) = bucket.directories.get(name) else {
        return Err(Code::NotDir);
    };
    let (_, rows) = directory_counts(core, nodes, child);
    if rows > 0 {
        return Err(Code::NotEmpty);
    }
    Ok(child)
}

// Ends a directory that nothing keeps but want of memory.
fn finish_rmdir(
    alloc: Global,
    shared: &FileShared,
    core: &mut FileCore,
    nodes: u32,
    dir: NodeId,
    name: Name,
    child: NodeId,
) -> Result<(), NoMemory>
    requires table { IsFileTable shared.now nodes }
    requires work { IsWorking (given_by shared.now) shared.now core.old }
    requires answered { core.old.waiting ≡ None }
    requires part { HoldsPart nodes core.old }
    requires spare { 0 < core.old.spare }
    requires names { NamesDirectory nodes core.old.held dir (bucket name) name child }
    requires held { (child.0 < nodes) × HoldsBuckets nodes core.old.held child }
    requires due { InEach core.old (λ tree. verdict tree core.old.view.core (Call.Rmdir dir name) ≡ done (Removes dir.0 name child.0)) }
    ensures { MatchResult result (λ _. IsAnswered shared.now (Call.Rmdir dir name) reply.Ok core.old core.new) (λ _. IsRefusedMemory shared.now core.old core.new) }
{
    core.calls_are_few();
    let number = bucket_of(&name);
    let ready = make_ready(alloc, shared, core, nodes, dir, &name)?;
    let stamp = core.stamp(shared, Call::Rmdir { dir, name }, Reply::Ok);
    remove_row(core, nodes, dir, number, &ready.name);
    place_directory(core, nodes, child, None);
    let change = removed_row(
        alloc,
        ready.changes,
        stamp,
        dir,
        ready.name,
        (child, Kind::Directory),
    );
    put_part(core, nodes, with_entry(ready.part, change));
    core.let_go(shared, 0);
    Ok(())
}

/// Removes the row of a directory that has no rows. It holds the bucket of the name, where the row's own directory does not stand also its
/// file, and all buckets of the directory that the row names. It may wait. Only want of memory refuses it.
pub fn rmdir<R: Wait, G: Gate>(
    rt: &R,
    alloc: Global,
    table: &TreeTable,
    core: &mut FileCore,
    dir: NodeId,
    name: Name,
    gate: &G,
) -> Result<Reply, NoMemory>
    requires core { IsBetweenCalls table.now core.old }
    requires spare { 0 < core.old.spare }
    requires room { CALL_CELLS ≤ core.old.room }
    ensures { ComesTo table.now (Call.Rmdir dir name) core.old core.new result }
{
    let shared = table.shared();
    let nodes = table.nodes();
    hold_ending(rt, shared, core, nodes, dir, &name);
    hold_part(rt, shared, core, nodes, gate);
    match rmdir_in(core, nodes, dir, &name) {
        Ok(child) => {
            finish_rmdir(alloc, shared, core, nodes, dir, name, child)?;
            Ok(Reply::Ok)
        }
        Err(code) => {
            let call = Call::Rmdir { dir, name };
            finish(alloc, shared, core, nodes, call, Reply::Error { code });
            Ok(Reply::Error { code })
        }
    }
}
