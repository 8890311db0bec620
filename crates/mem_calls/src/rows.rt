// Rows that come and go, without memory, behind the stamp.
ghost use Rattle.std.specs.Prelude.{◌≡◌, ◌+◌, ◌<◌, ℕ, [], ◌∷◌, Some, None, IsSome, OnOk, OnErr};
ghost use Rattle.std.specs.FinMap.{get, insert};
ghost use Rattle.tree_laws.specs.Logged.{log_entry};
ghost use Rattle.tree_laws.specs.declared.changes.Act.TheVariants.{Add as Adding, Remove as Removing};
ghost use Rattle.mem_values.specs.declared.bucket.Bucket.{Bucket as BucketValue};
ghost use Rattle.mem_values.specs.declared.cell.FileCell.{FileCell as FileValue};
ghost use Rattle.mem_calls.specs.Held.{bucket_held, file_held};
ghost use Rattle.mem_calls.specs.Changes.{IsWithoutRow, RemovesRow, LowersLinks, IsWithRow, RaisesLinks};

use crate::taking::{put, take_bucket, take_file};
use mem_values::{Bucket, Cell, CellId, FileCell, FileCore};
use sfs_base::{Kind, Name, NoMemory, NodeId, Stamp};
use std::alloc::Global;
use tree_laws::{Act, Ancestors, Change, Changes, NameMap};

// The bucket without the row of this name.
fn without_row(bucket: Box<Bucket>, name: &Name) -> Box<Bucket>
    requires { IsSome (get bucket.value.rows name.now) }
    ensures { IsWithoutRow name.now bucket.value result.value }
{
    let mut bucket = bucket;
    bucket.rows.remove(name);
    if bucket.directories.get(name).is_some() {
        bucket.directories.remove(name);
    }
    bucket
}

/// Takes a row out of a bucket that is held.
pub(crate) fn remove_row(core: &mut FileCore, nodes: u32, dir: NodeId, number: u8, name: &Name)
    requires held { IsSome (bucket_held nodes core.old.held dir number) }
    requires row { (bucket : BucketValue) → bucket_held nodes core.old.held dir number ≡ Some bucket → IsSome (get bucket.rows name.now) }
    ensures { RemovesRow nodes dir number name.now core.old core.new }
{
    let bucket = without_row(take_bucket(core, nodes, dir, number), name);
    let cell = CellId::Bucket {
        node: dir,
        bucket: number,
    };
    put(core, nodes, cell, Cell::Bucket { bucket });
}

// The file with one name less.
fn unlinked(file: Box<FileCell>) -> Box<FileCell>
    requires { 0 < file.value.links }
    ensures links { result.value.links + 1 ≡ file.value.links }
    ensures file { result.value.file ≡ file.value.file }
{
    let mut file = file;
    file.links -= 1;
    file
}

/// Takes a name from a file that is held.
pub(crate) fn lower_links(core: &mut FileCore, nodes: u32, node: NodeId)
    requires held { IsSome (file_held nodes core.old.held node) }
    requires links { (file : FileValue) → file_held nodes core.old.held node ≡ Some file → 0 < file.links }
    ensures { LowersLinks nodes node core.old core.new }
{
    let file = unlinked(take_file(core, nodes, node));
    put(core, nodes, CellId::File { node }, Cell::File { file });
}

/// The change of a row that goes, in room that was made.
pub(crate) fn removed_row(
    alloc: Global,
    changes: Changes,
    stamp: Stamp,
    dir: NodeId,
    name: Name,
    child: (NodeId, Kind),
) -> Changes
    requires none { changes.items ≡ [] }
    requires room { 0 < changes.spare }
    ensures { result.items ≡ log_entry stamp.0 dir.0 name child.0.0 child.1 Removing None [] ∷ [] }
{
    let mut changes = changes;
    changes.push(Change {
        stamp,
        dir,
        name,
        child: child.0,
        kind: child.1,
        act: Act::Remove,
        other: None,
        above: Ancestors::none(alloc),
    });
    changes
}

// Gives a name its row.
fn add_row(rows: &mut NameMap, name: &Name, child: NodeId) -> Result<(), NoMemory>
    requires { get rows.old name.now ≡ None }
    ensures ok { OnOk result (rows.new ≡ insert rows.old name.now child.0) }
    ensures err { OnErr result (rows.new ≡ rows.old) }
{
    let name = name.copy()?;
    rows.insert(name, child)
}

// Gives a name of a bucket its row.
fn add_child(bucket: &mut Bucket, name: &Name, child: NodeId, kind: Kind) -> Result<(), NoMemory>
    requires row { get bucket.old.rows name.now ≡ None }
    requires directory { get bucket.old.directories name.now ≡ None }
    ensures ok { OnOk result (IsWithRow name.now child.0 kind bucket.old bucket.new) }
    ensures err { OnErr result (bucket.new ≡ bucket.old) }
{
    add_row(&mut bucket.rows, name, child)?;
    if kind == Kind::Directory {
        if let Err(fault) = add_row(&mut bucket.directories, name, child) {
            bucket.rows.remove(name);
            return Err(fault);
        }
    }
    Ok(())
}

/// The bucket with a row more. Where it is refused memory the bucket is as it was.
pub(crate) fn with_row(
    bucket: Box<Bucket>,
    name: &Name,
    child: NodeId,
    kind: Kind,
) -> (Box<Bucket>, Result<(), NoMemory>)
    requires row { get bucket.value.rows name.now ≡ None }
    requires directory { get bucket.value.directories name.now ≡ None }
    ensures ok { OnOk result.1 (IsWithRow name.now child.0 kind bucket.value result.0.value) }
    ensures err { OnErr result.1 (result.0.value ≡ bucket.value) }
{
    let mut bucket = bucket;
    let outcome = add_child(&mut bucket, name, child, kind);
    (bucket, outcome)
}

// The file with one name more.
fn linked(file: Box<FileCell>) -> Box<FileCell>
    requires { file.value.links < 65535 }
    ensures links { result.value.links ≡ file.value.links + 1 }
    ensures file { result.value.file ≡ file.value.file }
{
    let mut file = file;
    file.links += 1;
    file
}

/// Gives a file that is held one name more.
pub(crate) fn raise_links(core: &mut FileCore, nodes: u32, node: NodeId)
    requires held { IsSome (file_held nodes core.old.held node) }
    requires links { (file : FileValue) → file_held nodes core.old.held node ≡ Some file → file.links < 65535 }
    ensures { RaisesLinks nodes node core.old core.new }
{
    let file = linked(take_file(core, nodes, node));
    put(core, nodes, CellId::File { node }, Cell::File { file });
}

/// The change of a row that comes, in room that was made.
pub(crate) fn added_row(
    alloc: Global,
    changes: Changes,
    stamp: Stamp,
    dir: NodeId,
    name: Name,
    child: (NodeId, Kind),
) -> Changes
    requires none { changes.items ≡ [] }
    requires room { 0 < changes.spare }
    ensures { result.items ≡ log_entry stamp.0 dir.0 name child.0.0 child.1 Adding None [] ∷ [] }
{
    let mut changes = changes;
    changes.push(Change {
        stamp,
        dir,
        name,
        child: child.0,
        kind: child.1,
        act: Act::Add,
        other: None,
        above: Ancestors::none(alloc),
    });
    changes
}
