// The calls that leave the tree as it is.
ghost use Rattle.std.specs.Prelude.{◌≡◌, ◌≤◌, ℕ, map, take, drop, IfOk};
ghost use Rattle.std.specs.FinMap as finmap;
ghost use Rattle.tree_laws.specs.declared.call.Call.TheVariants as call;

use super::Tree;
use super::faults::refused;
use sfs_base::{Chunk, Name, NoMemory, NodeId};
use std::alloc::Global;
use tree_laws::{Code, NameKind, NameMap, NameRows, Reply};

impl Tree {
    ghost use Rattle.tree_laws.specs.Tree.{bytes_of, links_of};
    ghost use Rattle.tree_laws.specs.Names.{with_kinds};
    ghost use Rattle.tree_laws.specs.Verdict.{size_of};
    ghost use Rattle.tree_laws.specs.Step.{IsAnswer};

    pub(super) fn look(&self, dir: NodeId, name: &Name) -> Reply
        ensures { IsAnswer self.now (call.Look dir name.now) result }
    {
        if let Some(code) = self.directory_fault(dir) {
            return refused(code);
        }
        match self.child(dir, name) {
            Some(node) => Reply::Node {
                node,
                kind: self.kind_of(node),
            },
            None => refused(Code::NoEntry),
        }
    }

    pub(super) fn stat(&self, node: NodeId) -> Reply
        ensures { IsAnswer self.now (call.Stat node) result }
    {
        if let Some(code) = self.node_fault(node) {
            return refused(code);
        }
        Reply::Stat {
            kind: self.kind_of(node),
            links: self.links(node),
            size: self.size_of(node),
        }
    }

    /// A node's link count: of a directory 2 and the number of rows in it that name directories, of any
    /// other number how many rows name it. It takes one step and no memory.
    pub fn links(&self, node: NodeId) -> u32
        ensures { result ≡ links_of self.now node.0 }
    {
        if self.is_directory(node) {
            2 + self.store.directories(node.0)
        } else {
            self.store.named(node.0)
        }
    }

    // Of a file how many bytes it has, of a directory how many rows.
    fn size_of(&self, node: NodeId) -> u64
        ensures { result ≡ size_of self.now node.0 }
    {
        if self.is_directory(node) {
            return u64::from(self.row_count(node));
        }
        match self.store.node(node.0) {
            Some(data) => data.bytes.len() as u64,
            None => 0,
        }
    }

    pub(super) fn list(&self, dir: NodeId) -> Result<Reply, NoMemory>
        ensures { IfOk result (λ reply. IsAnswer self.now (call.List dir) reply) }
    {
        if let Some(code) = self.directory_fault(dir) {
            return Ok(refused(code));
        }
        let names = self.names(dir)?;
        let rows = self.with_kinds(&names)?;
        Ok(Reply::Names { rows })
    }

    // Names with the kinds of their nodes.
    fn with_kinds(&self, names: &NameMap) -> Result<NameRows, NoMemory>
        ensures { IfOk result (λ rows. rows ≡ with_kinds self.now names.now) }
    {
        let mut rows = Vec::new(self.alloc);
        for row in names.rows() {
            rows.push(NameKind {
                name: row.name.copy()?,
                kind: self.kind_of(row.child),
            })?;
        }
        Ok(NameRows::from_rows(rows))
    }

    pub(super) fn read(&self, file: NodeId, at: u64, count: u32) -> Result<Reply, NoMemory>
        requires { count ≤ 65536 }
        ensures { IfOk result (λ reply. IsAnswer self.now (call.Read file at count) reply) }
    {
        if let Some(code) = self.file_fault(file) {
            return Ok(refused(code));
        }
        let bytes = self.read_bytes(file, at, count)?;
        Ok(Reply::Bytes { bytes })
    }

    // The bytes of a file from a place on, so many of them at most.
    fn read_bytes(&self, file: NodeId, at: u64, count: u32) -> Result<Chunk, NoMemory>
        requires { count ≤ 65536 }
        ensures { IfOk result (λ bytes. bytes ≡ take count (drop at (bytes_of self.now file.0))) }
    {
        match self.store.node(file.0) {
            Some(data) => part_of(self.alloc, &data.bytes, at, count),
            None => part_of(self.alloc, &[], at, count),
        }
    }

    pub(super) fn fsync(&self, node: NodeId) -> Reply
        ensures { IsAnswer self.now (call.Fsync node) result }
    {
        match self.node_fault(node) {
            Some(code) => refused(code),
            None => Reply::Ok,
        }
    }
}

// The bytes from a place on, so many of them at most.
fn part_of(alloc: Global, bytes: &[u8], at: u64, count: u32) -> Result<Chunk, NoMemory>
    requires { count ≤ 65536 }
    ensures { IfOk result (λ part. part ≡ take count (drop at bytes.now)) }
{
    let length = bytes.len() as u64;
    let first = at.min(length);
    let end = (first + u64::from(count)).min(length);
    let part = bytes[first as usize..end as usize].to_vec(alloc)?;
    match Chunk::new(part) {
        Ok(chunk) => Ok(chunk),
        Err(_) => unreachable!(),
    }
}
