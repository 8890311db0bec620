// A small tree on a table: what the cells show is what the tree has.
ghost use Rattle.std.specs.Prelude.{◌≡◌, ◌<◌, ℕ, All, length, slice_index_or};
ghost use Rattle.stamp_table.specs.Table.{IsBetweenCalls, IsSameCore};
ghost use Rattle.mem_values.specs.Places.{node_count};
ghost use Rattle.begun_tables.specs.Begun.{IsBuiltTree};

use crate::helpers::{got, holds};
use begun_tables::{put_node, put_row, root_alone};
use disk_nodes::{DirectorySlots, OldDisk, OldEntry, OldNode};
use fmt_inode::{Inode, Tables};
use mem_begin::make;
use mem_files::FileBytes;
use mem_values::{Cell, CellId, FileCore, FileShared, has_inode, hold_cells, value_of};
use sfs_base::{Kind, Name, NoMemory, NodeId, bucket_of};
use sfs_tree::Tree;
use std::alloc::Global;
use std::process::Abort;
use std::sync::Wait;

const ROOT: NodeId = NodeId(0);

const BELOW: NodeId = NodeId(1);

const FILE: NodeId = NodeId(2);

// How many nodes there may be: those below the first new one, and two shares of 2.
const NODES: u32 = 8;

const CORES: u8 = 2;

// How many places the table has.
const PLACES: usize = 144;

// What a cell shows: a row, with what it names and where its directory stands; or the file.
#[derive(Drop)]
enum Shown {
    Row {
        dir: NodeId,
        name: Name,
        child: NodeId,
        kind: Kind,
        stands: Option<NodeId>,
    },
    File {
        links: u32,
        bytes: Vec<u8>,
    },
}

// A directory `d` in the root, and a file with the names `a` in the root and `b` in the directory.
fn small_tree(rt: &impl Abort, alloc: Global) -> Tree
    ensures built { IsBuiltTree result }
    ensures nodes { node_count result ≡ NODES }
    ensures cores { length result.made ≡ CORES }
{
    let mut tree = got(rt, root_alone(alloc, 4, 2, CORES));
    holds(
        rt,
        got(
            rt,
            put_node(&mut tree, BELOW, Kind::Directory, Vec::new(alloc)),
        ),
    );
    let bytes = got(rt, b"some bytes".as_slice().to_vec(alloc));
    holds(rt, got(rt, put_node(&mut tree, FILE, Kind::File, bytes)));
    let name = got(rt, Name::new(alloc, b"d".as_slice()));
    holds(rt, got(rt, put_row(&mut tree, ROOT, name, BELOW)));
    let name = got(rt, Name::new(alloc, b"a".as_slice()));
    holds(rt, got(rt, put_row(&mut tree, ROOT, name, FILE)));
    let name = got(rt, Name::new(alloc, b"b".as_slice()));
    holds(rt, got(rt, put_row(&mut tree, BELOW, name, FILE)));
    tree
}

// What the disk has of a node: an inode with this record, and nothing else.
fn kept(alloc: Global, inode: u32, kind: u8, links: u32, size: u64) -> OldNode {
    let meta = Inode {
        kind,
        links,
        size,
        direct: [0; 108],
        indirect: [0; 16],
    };
    OldNode {
        inode,
        meta,
        tables: Tables::new(alloc),
        slots: DirectorySlots::new(alloc),
    }
}

// The root and the file have an inode, a directory's and a file's.
fn root_and_file(rt: &impl Abort, alloc: Global) -> OldDisk {
    let mut disk = OldDisk::new(alloc);
    holds(rt, disk.find(ROOT.0).is_none());
    let old = kept(alloc, 0, 2, 1, 0);
    got(rt, disk.add(OldEntry { node: ROOT, old }));
    holds(rt, disk.find(FILE.0).is_none());
    let old = kept(alloc, 3, 1, 2, 10);
    got(rt, disk.add(OldEntry { node: FILE, old }));
    disk
}

// The cell that shows it.
fn cell_of(shown: &Shown) -> CellId {
    match shown {
        Shown::Row { dir, name, .. } => CellId::Bucket {
            node: *dir,
            bucket: bucket_of(name),
        },
        Shown::File { .. } => CellId::File { node: FILE },
    }
}

// Whether a value shows it.
fn shows(cell: &Cell, shown: &Shown) -> bool {
    match (cell, shown) {
        (
            Cell::Bucket { bucket },
            Shown::Row {
                dir: _,
                name,
                child,
                kind,
                stands,
            },
        ) => {
            bucket.rows.get(name) == Some(*child)
                && bucket.kind(name) == *kind
                && bucket.stands == *stands
        }
        (Cell::File { file }, Shown::File { links, bytes }) => {
            file.links == *links && has_bytes(&file.file, bytes)
        }
        _ => false,
    }
}

// Whether a file has these bytes, which are at most 16, and no mark.
fn has_bytes(file: &FileBytes, bytes: &[u8]) -> bool {
    let mut read = [0u8; 16];
    let count = file.read(0, read.as_mut_slice());
    file.size() == bytes.len() as u64 && &read[..count] == bytes && file.last(0).is_none()
}

// Holds the cell that shows it, looks whether it does, and lets go.
fn look<R: Wait>(rt: &R, shared: &FileShared, core: &mut FileCore, shown: &Shown) -> bool
    requires core { IsBetweenCalls shared.now core.old }
    requires places { shared.now.table.id.slots ≡ PLACES }
    ensures same { IsSameCore core.old core.new }
    ensures between { IsBetweenCalls shared.now core.new }
{
    let cell = cell_of(shown);
    if cell.place(NODES) >= PLACES || core.reserve(0, 1).is_err() {
        return false;
    }
    hold_cells(rt, shared, core, NODES, &[cell]);
    let found = shows(value_of(core, NODES, cell), shown);
    core.let_go(shared, 0);
    found
}

// Whether a core finds a file with an inode in exactly the file, and not in the root.
fn finds_inode<R: Wait>(rt: &R, shared: &FileShared, core: &mut FileCore) -> bool
    requires core { IsBetweenCalls shared.now core.old }
    requires places { shared.now.table.id.slots ≡ PLACES }
    ensures same { IsSameCore core.old core.new }
    ensures between { IsBetweenCalls shared.now core.new }
{
    for node in 0..NODES {
        if core.reserve(0, 1).is_err() {
            return false;
        }
        if has_inode(rt, shared, core, NODES, NodeId(node)) != (node == FILE.0) {
            return false;
        }
    }
    true
}

// Whether a core is shown all of it.
fn is_shown<R: Wait>(rt: &R, shared: &FileShared, core: &mut FileCore, all: &[Shown]) -> bool
    requires core { IsBetweenCalls shared.now core.old }
    requires places { shared.now.table.id.slots ≡ PLACES }
    ensures same { IsSameCore core.old core.new }
    ensures between { IsBetweenCalls shared.now core.new }
{
    for shown in all {
        if !look(rt, shared, core, shown) {
            return false;
        }
    }
    finds_inode(rt, shared, core)
}

// Whether each core is.
fn are_all_shown<R: Wait>(
    rt: &R,
    shared: &FileShared,
    cores: &mut [FileCore],
    all: &[Shown],
) -> bool
    requires cores { All (IsBetweenCalls shared.now) cores.old }
    requires places { shared.now.table.id.slots ≡ PLACES }
    ensures count { length cores.new ≡ length cores.old }
    ensures same { (place : ℕ) (d : _) → place < length cores.old → IsSameCore (slice_index_or cores.old place d) (slice_index_or cores.new place d)
        × IsBetweenCalls shared.now (slice_index_or cores.new place d) }
{
    let mut found = true;
    for core in cores.iter_mut() {
        if !is_shown(rt, shared, core, all) {
            found = false;
        }
    }
    found
}

// Puts a tree on a table and ends it. Says whether each core was shown all of it, and the history is empty.
fn begins_and_ends<R: Wait>(
    rt: &R,
    alloc: Global,
    tree: &Tree,
    given: OldDisk,
    all: &[Shown],
) -> Result<bool, NoMemory>
    requires built { IsBuiltTree tree.now }
    requires nodes { node_count tree.now ≡ NODES }
    requires cores { length tree.now.made ≡ CORES }
{
    let (shared, mut cores) = make(alloc, tree, given, NODES, CORES)?;
    let found = are_all_shown(rt, &shared, cores.as_mut_slice(), all);
    let (history, _) = shared.close(cores);
    Ok(found && history.is_empty())
}

// What the cells of the small tree show.
fn small_cells(rt: &impl Abort, alloc: Global) -> Vec<Shown> {
    let mut all = Vec::new(alloc);
    got(
        rt,
        all.push(Shown::Row {
            dir: ROOT,
            name: got(rt, Name::new(alloc, b"d".as_slice())),
            child: BELOW,
            kind: Kind::Directory,
            stands: None,
        }),
    );
    got(
        rt,
        all.push(Shown::Row {
            dir: ROOT,
            name: got(rt, Name::new(alloc, b"a".as_slice())),
            child: FILE,
            kind: Kind::File,
            stands: None,
        }),
    );
    got(
        rt,
        all.push(Shown::Row {
            dir: BELOW,
            name: got(rt, Name::new(alloc, b"b".as_slice())),
            child: FILE,
            kind: Kind::File,
            stands: Some(ROOT),
        }),
    );
    got(
        rt,
        all.push(Shown::File {
            links: 2,
            bytes: got(rt, b"some bytes".as_slice().to_vec(alloc)),
        }),
    );
    all
}

#[test]
fn cells_show_what_the_tree_has(rt: HostRuntime) {
    let alloc = rt.alloc();
    let all = small_cells(&rt, alloc);
    let tree = small_tree(&rt, alloc);
    let given = root_and_file(&rt, alloc);
    let shown = got(&rt, begins_and_ends(&rt, alloc, &tree, given, &all));
    holds(&rt, shown);
}
