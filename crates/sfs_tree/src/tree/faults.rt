// Why a call is refused: what several calls ask.
ghost use Rattle.std.specs.Prelude.{◌≡◌, ◌≤◌, nat_le};
ghost use Rattle.std.specs.FinMap as finmap;
ghost use Rattle.sfs_base.specs.Name.{bucket};

use super::Tree;
use sfs_base::{Kind, Name, NodeId, bucket_of};
use tree_laws::{Code, Reply};

/// How many rows a bucket of a directory holds at most.
const BUCKET_ROWS: usize = 4096;

// The reply to a call that is refused.
pub(super) fn refused(code: Code) -> Reply
    ensures { result ≡ Reply.Error code }
{
    Reply::Error { code }
}

impl Tree {
    ghost use Rattle.tree_laws.specs.Tree.{is_directory, kind_of};
    ghost use Rattle.tree_laws.specs.Verdict.{directory_fault, file_fault, node_fault, is_full};

    pub(super) fn is_directory(&self, node: NodeId) -> bool
        ensures { result ≡ is_directory self.now node.0 }
    {
        self.store.is_directory(node.0)
    }

    // A node's kind, and File for a number of no node.
    pub(super) fn kind_of(&self, node: NodeId) -> Kind
        ensures { result ≡ kind_of self.now node.0 }
    {
        match self.store.node(node.0) {
            Some(data) => data.kind,
            None => Kind::File,
        }
    }

    // Whether the name's bucket has as many rows as it may have.
    pub(super) fn is_full(&self, dir: NodeId, name: &Name) -> bool
        ensures { result ≡ is_full self.now dir.0 name.now }
    {
        match self.store.bucket(dir.0, bucket_of(name)) {
            Some(rows) => rows.len() >= BUCKET_ROWS,
            None => false,
        }
    }

    // Why a directory can't be used.
    pub(super) fn directory_fault(&self, dir: NodeId) -> Option<Code>
        ensures { result ≡ directory_fault self.now dir.0 }
    {
        if !self.is_alive(dir) {
            Some(Code::NoEntry)
        } else if !self.is_directory(dir) {
            Some(Code::NotDir)
        } else {
            None
        }
    }

    // Why a file's bytes can't be used.
    pub(super) fn file_fault(&self, file: NodeId) -> Option<Code>
        ensures { result ≡ file_fault self.now file.0 }
    {
        if !self.is_alive(file) {
            Some(Code::NoEntry)
        } else if self.is_directory(file) {
            Some(Code::IsDir)
        } else {
            None
        }
    }

    // Why a node can't be asked for.
    pub(super) fn node_fault(&self, node: NodeId) -> Option<Code>
        ensures { result ≡ node_fault self.now node.0 }
    {
        if self.is_alive(node) {
            None
        } else {
            Some(Code::NoEntry)
        }
    }
}
