// What a file begins with: its links, and its bytes without marks.
ghost use Rattle.std.specs.Prelude.{◌≡◌, ◌≤◌, ℕ, None, length, IfOk};
ghost use Rattle.tree_laws.specs.Tree.{bytes_of};
ghost use Rattle.tree_laws.specs.Verdict.{LARGEST_FILE};
ghost use Rattle.mem_files.specs.File.{mark_of};
ghost use Rattle.mem_values.specs.Stands.{file_links};

use crate::bucket::is_directory;
use mem_files::FileBytes;
use mem_values::FileCell;
use sfs_base::{NoMemory, NodeId};
use sfs_tree::Tree;
use std::alloc::Global;

// How many rows name a file, and 0 for a directory.
fn links_of(tree: &Tree, node: NodeId) -> u32
    ensures { result ≡ file_links tree.now node.0 }
{
    if is_directory(tree, node) {
        0
    } else {
        tree.links(node)
    }
}

// The bytes of a node, without marks.
fn bytes_of(alloc: Global, tree: &Tree, node: NodeId) -> Result<FileBytes, NoMemory>
    requires { length (bytes_of tree.now node.0) ≤ LARGEST_FILE }
    ensures bytes { IfOk result (λ file. file.bytes ≡ bytes_of tree.now node.0) }
    ensures marks { IfOk result (λ file. (block : ℕ) → mark_of file block ≡ None) }
{
    match tree.kind(node) {
        Some(_) => unmarked(alloc, tree.bytes(node)),
        None => Ok(FileBytes::new(alloc)),
    }
}

// A file with these bytes and no marks.
fn unmarked(alloc: Global, bytes: &[u8]) -> Result<FileBytes, NoMemory>
    requires { length bytes.now ≤ LARGEST_FILE }
    ensures bytes { IfOk result (λ file. file.bytes ≡ bytes.now) }
    ensures marks { IfOk result (λ file. (block : ℕ) → mark_of file block ≡ None) }
{
    let mut file = FileBytes::new(alloc);
    file.write(0, bytes)?;
    Ok(file)
}

/// A node as a file: how many rows name it, and its bytes, copied, without marks.
pub(crate) fn file_of(alloc: Global, tree: &Tree, node: NodeId) -> Result<FileCell, NoMemory>
    requires { length (bytes_of tree.now node.0) ≤ LARGEST_FILE }
    ensures links { IfOk result (λ cell. cell.links ≡ file_links tree.now node.0) }
    ensures bytes { IfOk result (λ cell. cell.file.bytes ≡ bytes_of tree.now node.0) }
    ensures marks { IfOk result (λ cell. (block : ℕ) → mark_of cell.file block ≡ None) }
{
    let file = bytes_of(alloc, tree, node)?;
    Ok(FileCell {
        links: links_of(tree, node),
        file,
    })
}
