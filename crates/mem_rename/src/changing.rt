// What a rename changes of the buckets and the file that its core holds.
ghost use Rattle.std.specs.Prelude.{◌≡◌, ◌<◌, ℕ, true, IfOk, IsSome, OnOk, OnErr, Some, MatchOption, MatchResult, is_some};
ghost use Rattle.std.specs.FinMap as finmap;
ghost use Rattle.sfs_base.specs.Name.{bucket};
ghost use Rattle.mem_calls.specs.Held.{bucket_held, file_held};
ghost use Rattle.mem_rename.specs.Moving.{row_again, with_row, without_row, standing, less_one, same_file, in_buckets_of, PutsBucket, PutsFile, ChangesHeld, ShowsThere};
ghost use Rattle.mem_rename.specs.Ready.{bucket_or};

use crate::shifts::Shift;
use crate::sides::Move;
use mem_calls::{put, put_bucket, take_bucket, take_file};
use mem_values::{Bucket, Cell, CellId, FileCell, FileCore};
use sfs_base::{Name, NoMemory, NodeId, bucket_of};
use tree_laws::NameMap;

// Gives a name's row this child, where it is there, or adds it. A name that is not needed is given back.
fn put_row(
    rows: &mut NameMap,
    name: Name,
    child: NodeId,
    there: bool,
) -> Result<Option<Name>, NoMemory>
    requires { there ≡ is_some (finmap.get rows.old name) }
    ensures ok { OnOk result (rows.new ≡ finmap.insert rows.old name child.0) }
    ensures left { IfOk result (λ left. there ≡ true → left ≡ Some name) }
    ensures err { OnErr result (rows.new ≡ rows.old) }
{
    if there {
        rows.replace(&name, child);
        return Ok(Some(name));
    }
    rows.insert(name, child)?;
    Ok(None)
}

// The same among the rows that name directories, with a copy of the name where it is added.
fn put_directory(
    rows: &mut NameMap,
    name: &Name,
    child: NodeId,
    there: bool,
) -> Result<(), NoMemory>
    requires { there ≡ is_some (finmap.get rows.old name.now) }
    ensures ok { OnOk result (rows.new ≡ finmap.insert rows.old name.now child.0) }
    ensures err { OnErr result (rows.new ≡ rows.old) }
{
    if there {
        rows.replace(name, child);
        return Ok(());
    }
    let name = name.copy()?;
    rows.insert(name, child)
}

// Gives a name's row the child that it had, or takes it away.
fn put_back(rows: &mut NameMap, name: &Name, there: Option<NodeId>)
    requires { IsSome (finmap.get rows.old name.now) }
    ensures { rows.new ≡ row_again name.now there rows.old }
{
    match there {
        Some(child) => rows.replace(name, child),
        None => rows.remove(name),
    }
}

// Takes away a name's row, where there is one.
fn drop_row(rows: &mut NameMap, name: &Name)
    ensures { rows.new ≡ finmap.remove rows.old name.now }
{
    if rows.get(name).is_some() {
        rows.remove(name);
    }
}

// A name's row in a bucket names the child that moves; where it is refused memory the bucket is as it was. The name once more is given back
// where the row is there already.
fn put_child(
    bucket: &mut Bucket,
    name: &Name,
    shift: Shift,
    row: Name,
) -> Result<Option<Name>, NoMemory>
    requires row { row ≡ name.now }
    requires there { ShowsThere name.now shift bucket.old }
    ensures ok { OnOk result (bucket.new ≡ with_row shift.child_is_directory name.now shift.child.0 bucket.old) }
    ensures left { IfOk result (λ left. is_some shift.there ≡ true → left ≡ Some name.now) }
    ensures err { OnErr result (bucket.new ≡ bucket.old) }
{
    let left = put_row(&mut bucket.rows, row, shift.child, shift.there.is_some())?;
    if !shift.child_is_directory {
        return Ok(left);
    }
    match put_directory(
        &mut bucket.directories,
        name,
        shift.child,
        shift.there_is_directory,
    ) {
        Ok(()) => Ok(left),
        Err(fault) => {
            put_back(&mut bucket.rows, name, shift.there);
            Err(fault)
        }
    }
}

// The bucket in which a name's row names the child that moves, or the bucket as it was.
fn with_row(
    bucket: Box<Bucket>,
    name: &Name,
    shift: Shift,
    row: Name,
) -> (Box<Bucket>, Result<Option<Name>, NoMemory>)
    requires row { row ≡ name.now }
    requires there { ShowsThere name.now shift bucket.value }
    ensures ok { OnOk result.1 (result.0.value ≡ with_row shift.child_is_directory name.now shift.child.0 bucket.value) }
    ensures left { IfOk result.1 (λ left. is_some shift.there ≡ true → left ≡ Some name.now) }
    ensures err { OnErr result.1 (result.0.value ≡ bucket.value) }
{
    let mut bucket = bucket;
    let outcome = put_child(&mut bucket, name, shift, row);
    (bucket, outcome)
}

/// Puts the new row into its bucket, which is held. Where it is refused memory the bucket is as it was. The name once more is given back where
/// the row is there already.
pub(crate) fn add_row(
    core: &mut FileCore,
    nodes: u32,
    move_: &Move,
    shift: Shift,
    row: Name,
) -> Result<Option<Name>, NoMemory>
    requires held { IsSome (bucket_held nodes core.old.held move_.now.to_directory (bucket move_.now.to_name)) }
    requires there { ShowsThere move_.now.to_name shift (bucket_or (bucket_held nodes core.old.held move_.now.to_directory (bucket move_.now.to_name))) }
    requires row { row ≡ move_.now.to_name }
    ensures puts { MatchResult result
        (λ _. PutsBucket nodes move_.now.to_directory (bucket move_.now.to_name)
        (with_row shift.child_is_directory move_.now.to_name shift.child.0) core.old core.new)
        (λ _. PutsBucket nodes move_.now.to_directory (bucket move_.now.to_name) (λ b. b) core.old core.new) }
    ensures left { IfOk result (λ left. is_some shift.there ≡ true → left ≡ Some move_.now.to_name) }
{
    let node = move_.to_directory;
    let number = bucket_of(&move_.to_name);
    let taken = take_bucket(core, nodes, node, number);
    let (bucket, outcome) = with_row(taken, &move_.to_name, shift, row);
    put_bucket(core, nodes, node, number, bucket);
    outcome
}

// The bucket without a name's row.
fn without_row(bucket: Box<Bucket>, name: &Name) -> Box<Bucket>
    ensures { result.value ≡ without_row name.now bucket.value }
{
    let mut bucket = bucket;
    drop_row(&mut bucket.rows, name);
    drop_row(&mut bucket.directories, name);
    bucket
}

/// Takes the old row out of its bucket, which is held.
pub(crate) fn remove_row(core: &mut FileCore, nodes: u32, move_: &Move)
    requires { IsSome (bucket_held nodes core.old.held move_.now.directory (bucket move_.now.name)) }
    ensures { PutsBucket nodes move_.now.directory (bucket move_.now.name) (without_row move_.now.name) core.old core.new }
{
    let node = move_.directory;
    let number = bucket_of(&move_.name);
    let bucket = without_row(take_bucket(core, nodes, node, number), &move_.name);
    put_bucket(core, nodes, node, number, bucket);
}

// The bucket of a directory that stands here.
fn standing(bucket: Box<Bucket>, stands: Option<NodeId>) -> Box<Bucket>
    ensures { result.value ≡ standing stands bucket.value }
{
    let mut bucket = bucket;
    bucket.stands = stands;
    bucket
}

// One bucket of a directory says that this stands here.
fn stand(core: &mut FileCore, nodes: u32, node: NodeId, number: u8, stands: Option<NodeId>)
    requires { IsSome (bucket_held nodes core.old.held node number) }
    ensures { PutsBucket nodes node number (standing stands) core.old core.new }
{
    let bucket = standing(take_bucket(core, nodes, node, number), stands);
    put_bucket(core, nodes, node, number, bucket);
}

/// The eight buckets of a directory that may be there, which are held, say that it stands here.
pub(crate) fn all_stand(
    core: &mut FileCore,
    nodes: u32,
    node: Option<NodeId>,
    stands: Option<NodeId>,
)
    requires within { MatchOption node Unit (λ n. n.0 < nodes) }
    requires held { MatchOption node Unit (λ n. (number : ℕ) → number < 8 → IsSome (bucket_held nodes core.old.held n number)) }
    ensures { ChangesHeld nodes (in_buckets_of node (standing stands)) same_file core.old core.new }
{
    let Some(node) = node else {
        return;
    };
    for number in 0..8u8 {
        stand(core, nodes, node, number, stands);
    }
}

// The file with one name less.
fn less_one(file: Box<FileCell>) -> Box<FileCell>
    ensures { result.value ≡ less_one file.value }
{
    let mut file = file;
    file.links = file.links.saturating_sub(1);
    file
}

/// Takes a name from a file that is held.
pub(crate) fn lower_links(core: &mut FileCore, nodes: u32, node: NodeId)
    requires { IsSome (file_held nodes core.old.held node) }
    ensures { PutsFile nodes node less_one core.old core.new }
{
    let file = less_one(take_file(core, nodes, node));
    put(core, nodes, CellId::File { node }, Cell::File { file });
}
