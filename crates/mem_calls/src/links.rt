// Further rows of a file.
ghost use Rattle.std.specs.Prelude.{◌≡◌, ◌+◌, ◌*◌, ◌<◌, ◌≤◌, [], None, length, MatchOption, MatchResult};
ghost use Rattle.sfs_base.specs.Name.{bucket};
ghost use Rattle.tree_laws.specs.Effect.{Adds};
ghost use Rattle.tree_laws.specs.Verdict.{verdict, refused, done};
ghost use Rattle.tree_laws.specs.declared.reply.Reply.TheVariants as reply;
ghost use Rattle.stamp_table.specs.Ascending.{LiesAbove};
ghost use Rattle.stamp_table.specs.Table.{IsBetweenCalls};
ghost use Rattle.mem_values.specs.Start.{given_by};
ghost use Rattle.mem_values.specs.Places.{node_count};
ghost use Rattle.mem_calls.specs.Table.{IsFileTable};
ghost use Rattle.mem_calls.specs.Held.{HoldsDirectory, HoldsFile, HoldsPart, InEach};
ghost use Rattle.mem_calls.specs.Working.{IsWorking, WorksOn};
ghost use Rattle.mem_calls.specs.Changes.{MayLink, HoldsLink, link_code};
ghost use Rattle.mem_calls.specs.Outcome.{IsAnswered, IsRefusedMemory, ComesTo};

use crate::coming::make_coming;
use crate::finish::finish;
use crate::held::{bucket_in, directory_fault_in, file_fault_in, file_in};
use crate::holding::{CALL_CELLS, hold_directory, hold_file, hold_more, hold_part};
use crate::rows::{added_row, raise_links};
use crate::table::TreeTable;
use crate::taking::{put_bucket, put_part, with_entry};
use mem_values::{CellId, FileCore, FileShared};
use sfs_base::{Gate, Kind, Name, NoMemory, NodeId, bucket_of};
use std::alloc::Global;
use std::sync::Wait;
use tree_laws::{Call, Code, Reply};

// From how many links on a file can't have a further one.
const MOST_LINKS: u32 = 65_535;

/// How many rows a bucket has at most.
pub const BUCKET_ROWS: usize = 4096;

// Gives a file a further row that nothing refuses but want of memory.
fn finish_link(
    alloc: Global,
    shared: &FileShared,
    core: &mut FileCore,
    nodes: u32,
    file: NodeId,
    dir: NodeId,
    name: Name,
) -> Result<(), NoMemory>
    requires table { IsFileTable shared.now nodes }
    requires work { IsWorking (given_by shared.now) shared.now core.old }
    requires answered { core.old.waiting ≡ None }
    requires part { HoldsPart nodes core.old }
    requires spare { 0 < core.old.spare }
    requires may { MayLink nodes core.old.held file dir name }
    requires due { InEach core.old (λ tree. verdict tree core.old.view.core (Call.Link file dir name) ≡ done (Adds dir.0 name file.0)) }
    ensures { MatchResult result (λ _. IsAnswered shared.now (Call.Link file dir name) reply.Ok core.old core.new)
        (λ _. IsRefusedMemory shared.now core.old core.new) }
{
    core.calls_are_few();
    let number = bucket_of(&name);
    let child = (file, Kind::File);
    let coming = make_coming(alloc, shared, core, nodes, dir, &name, child)?;
    let stamp = core.stamp(shared, Call::Link { file, dir, name }, Reply::Ok);
    put_bucket(core, nodes, dir, number, coming.bucket);
    raise_links(core, nodes, file);
    let ready = coming.ready;
    let change = added_row(alloc, ready.changes, stamp, dir, ready.name, child);
    put_part(core, nodes, with_entry(ready.part, change));
    core.let_go(shared, 0);
    Ok(())
}

// Why a file can't have a further row, by what is held; none where it can.
fn link_in(core: &FileCore, nodes: u32, file: NodeId, dir: NodeId, name: &Name) -> Option<Code>
    requires counted { nodes ≡ node_count core.now.view.first }
    requires held { HoldsLink nodes file dir name.now core.now }
    ensures due { MatchOption result
        (InEach core.now (λ tree. verdict tree core.now.view.core (Call.Link file dir name.now) ≡ done (Adds dir.0 name.now file.0)))
        (λ code. InEach core.now (λ tree. verdict tree core.now.view.core (Call.Link file dir name.now) ≡ refused code)) }
    ensures may { result ≡ None → MayLink nodes core.now.held file dir name.now }
{
    let number = bucket_of(name);
    if file.0 == dir.0 {
        return match directory_fault_in(core, nodes, dir, number) {
            Some(code) => Some(code),
            None => Some(Code::NotPermitted),
        };
    }
    if let Some(code) = file_fault_in(core, nodes, file) {
        return Some(link_code(code));
    }
    if let Some(code) = directory_fault_in(core, nodes, dir, number) {
        return Some(code);
    }
    let bucket = bucket_in(core, nodes, dir, number);
    if bucket.rows.get(name).is_some() {
        return Some(Code::Exists);
    }
    if file_in(core, nodes, file).links >= MOST_LINKS {
        return Some(Code::TooManyLinks);
    }
    if bucket.rows.len() >= BUCKET_ROWS {
        return Some(Code::DirFull);
    }
    None
}

// Holds the file and the place of the row, in their order.
fn hold_link<R: Wait>(
    rt: &R,
    shared: &FileShared,
    core: &mut FileCore,
    nodes: u32,
    file: NodeId,
    dir: NodeId,
    name: &Name,
)
    requires table { IsFileTable shared.now nodes }
    requires work { IsWorking (given_by shared.now) shared.now core.old }
    requires none { (core.old.held ≡ []) × (core.old.view.held ≡ []) }
    requires room { CALL_CELLS ≤ core.old.room }
    ensures work { IsWorking (given_by shared.now) shared.now core.new }
    ensures on { WorksOn core.old core.new }
    ensures held { HoldsLink nodes file dir name.now core.new }
    ensures below { LiesAbove (32 + 10 * nodes) core.new.view.held }
    ensures room { core.old.room ≤ core.new.room + 4 }
{
    let number = bucket_of(name);
    if file.0 < dir.0 {
        hold_file(rt, shared, core, nodes, file);
        hold_directory(rt, shared, core, nodes, dir, number);
        return;
    }
    hold_directory(rt, shared, core, nodes, dir, number);
    if file.0 > dir.0 && file.0 < nodes {
        hold_more(
            rt,
            shared,
            core,
            nodes,
            CellId::Bucket {
                node: file,
                bucket: 0,
            },
        );
        hold_more(rt, shared, core, nodes, CellId::File { node: file });
    }
}

/// Makes one more row that names a file. It holds the file and the bucket of the name; where no row names the file also the first bucket
/// of its node, and so where it lies above the directory; where the directory does not stand also its file. It may wait. Only want of
/// memory refuses it.
pub fn link<R: Wait, G: Gate>(
    rt: &R,
    alloc: Global,
    table: &TreeTable,
    core: &mut FileCore,
    file: NodeId,
    dir: NodeId,
    name: Name,
    gate: &G,
) -> Result<Reply, NoMemory>
    requires core { IsBetweenCalls table.now core.old }
    requires spare { 0 < core.old.spare }
    requires room { CALL_CELLS ≤ core.old.room }
    ensures { ComesTo table.now (Call.Link file dir name) core.old core.new result }
{
    let shared = table.shared();
    let nodes = table.nodes();
    hold_link(rt, shared, core, nodes, file, dir, &name);
    hold_part(rt, shared, core, nodes, gate);
    match link_in(core, nodes, file, dir, &name) {
        Some(code) => {
            let call = Call::Link { file, dir, name };
            finish(alloc, shared, core, nodes, call, Reply::Error { code });
            Ok(Reply::Error { code })
        }
        None => {
            finish_link(alloc, shared, core, nodes, file, dir, name)?;
            Ok(Reply::Ok)
        }
    }
}

// Why a node can't be linked that can't be used as a file.
fn link_code(code: Code) -> Code
    ensures { result ≡ link_code code }
{
    match code {
        Code::IsDir => Code::NotPermitted,
        code => code,
    }
}
