ghost use Rattle.std.specs.Prelude.{◌≡◌, ◌<◌, ◌≤◌, ◌^◌, ℕ, length, IsSome};
ghost use Rattle.std.specs.FinMap as finmap;
ghost use Rattle.tree_laws.specs.Tree.{bytes_of};
ghost use Rattle.tree_totals.specs.Totals.{LONGEST_FILE, live_bytes, rows_in, total_bytes, total_rows};

use sfs_base::{Kind, NodeId};
use sfs_tree::Tree;

/// How much a tree has.
#[derive(Clone, Copy)]
pub struct TreeTotals {
    /// The rows of all its directories.
    pub rows: u64,
    /// The bytes of its live files.
    pub bytes: u64,
}

/// The totals of a tree without too long a file. It changes nothing, takes no memory, and time in
/// proportion to the greatest number of a node.
pub fn totals(tree: &Tree) -> TreeTotals
    requires short { (node : ℕ) → length (bytes_of tree.now node) ≤ LONGEST_FILE }
    ensures rows { result.rows ≡ total_rows tree.now }
    ensures bytes { result.bytes ≡ total_bytes tree.now }
{
    let mut rows = 0u64;
    let mut bytes = 0u64;
    let mut after = None;
    while let Some(node) = tree.next_node(after) {
        rows += rows_in(tree, node);
        bytes += live_bytes(tree, node);
        after = Some(node);
    }
    TreeTotals { rows, bytes }
}

fn rows_in(tree: &Tree, node: NodeId) -> u64
    ensures rows { result ≡ rows_in tree.now node.0 }
    ensures few { result < 2 ^ 32 }
{
    match tree.kind(node) {
        Some(Kind::Directory) => u64::from(tree.row_count(node)),
        _ => 0,
    }
}

fn live_bytes(tree: &Tree, node: NodeId) -> u64
    requires node { IsSome (finmap.get tree.now.nodes node.0) }
    ensures bytes { result ≡ live_bytes tree.now node.0 }
{
    if tree.is_alive(node) {
        tree.bytes(node).len() as u64
    } else {
        0
    }
}
