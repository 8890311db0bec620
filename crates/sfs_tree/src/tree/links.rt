// The calls that make a row or take one away.
ghost use Rattle.std.specs.Prelude.{◌≡◌, ◌+◌, ◌<◌, ◌≤◌, ℕ, None, Some, length, IsTrue, IfOk, OnOk, OnErr};
ghost use Rattle.std.specs.FinMap as finmap;
ghost use Rattle.sfs_base.specs.Name.{bucket};
ghost use Rattle.tree_laws.specs.declared.call.Call.TheVariants as call;

use super::Tree;
use super::faults::refused;
use crate::nodes::NodeData;
use sfs_base::{CoreId, Kind, Name, NoMemory, NodeId};
use tree_laws::{Code, Reply};

/// Up to how many links a further one may bring a file.
const MOST_LINKS: u32 = 65_535;

impl Tree {
    ghost use Rattle.tree_laws.specs.Tree.{row_of, is_directory, bucket_rows, made_by, next_number};
    ghost use Rattle.tree_laws.specs.Effect.{Adds, tree_with};
    ghost use Rattle.tree_laws.specs.Verdict.{make_fault};
    ghost use Rattle.tree_laws.specs.Step.{IsStep};

    pub(super) fn make(
        &mut self,
        core: CoreId,
        dir: NodeId,
        name: &Name,
        kind: Kind,
    ) -> Result<Reply, NoMemory>
        requires { core.0 < length self.old.made }
        ensures ok { IfOk result (λ reply. IsStep self.old core.0 (call.Make dir name.now kind) reply self.new) }
        ensures err { OnErr result (self.new ≡ self.old) }
    {
        if let Some(code) = self.make_fault(core, dir, name) {
            return Ok(refused(code));
        }
        let node = self.next_number(core);
        self.make_node(core, dir, name.copy()?, node, kind)?;
        Ok(Reply::Node { node, kind })
    }

    // Why a node can't be made here.
    fn make_fault(&self, core: CoreId, dir: NodeId, name: &Name) -> Option<Code>
        requires { core.0 < length self.now.made }
        ensures { result ≡ make_fault self.now core.0 dir.0 name.now }
    {
        if let Some(code) = self.directory_fault(dir) {
            return Some(code);
        }
        if self.child(dir, name).is_some() {
            Some(Code::Exists)
        } else if self.is_full(dir, name) {
            Some(Code::DirFull)
        } else if self.made[core.0 as usize] >= self.share {
            Some(Code::NoNodes)
        } else {
            None
        }
    }

    // The number of the node that the core makes next.
    fn next_number(&self, core: CoreId) -> NodeId
        requires core { core.0 < length self.now.made }
        requires share { made_by self.now core.0 < self.now.share }
        ensures { result.0 ≡ next_number self.now core.0 }
    {
        NodeId(self.first + u32::from(core.0) * self.share + self.made[core.0 as usize])
    }

    // Puts the row, the node and the count of the core's nodes.
    fn make_node(
        &mut self,
        core: CoreId,
        dir: NodeId,
        name: Name,
        node: NodeId,
        kind: Kind,
    ) -> Result<(), NoMemory>
        requires core { core.0 < length self.old.made }
        requires directory { IsTrue (is_directory self.old dir.0) }
        requires absent { row_of self.old dir.0 name ≡ None }
        requires room { finmap.len (bucket_rows dir.0 (bucket name) self.old.rows) < 4096 }
        requires share { made_by self.old core.0 < self.old.share }
        requires node { node.0 ≡ next_number self.old core.0 }
        ensures ok { OnOk result (self.new ≡ tree_with self.old core.0 (Adds dir.0 name node.0) (Some kind)) }
        ensures err { OnErr result (self.new ≡ self.old) }
    {
        self.store.grow(self.alloc, node.0 as usize + 1)?;
        let empty = NodeData {
            kind,
            bytes: Vec::new(self.alloc),
        };
        self.store.put_both(dir.0, name, node, empty)?;
        self.made[core.0 as usize] += 1;
        Ok(())
    }
}

impl Tree {
    ghost use Rattle.tree_laws.specs.Verdict.{link_fault, unlink_row, rmdir_row};
    ghost use Rattle.tree_laws.specs.Tree.{row_of};
    ghost use Rattle.tree_laws.specs.Sound.{IsSound};
    ghost use Rattle.tree_laws.specs.Step.{IsStep, IsLine};

    pub(super) fn link(&mut self, file: NodeId, dir: NodeId, name: &Name) -> Result<Reply, NoMemory>
        requires { IsSound self.old }
        ensures ok { IfOk result (λ reply. (core : ℕ) → IsStep self.old core (call.Link file dir name.now) reply self.new) }
        ensures err { OnErr result (self.new ≡ self.old) }
    {
        match self.link_fault(file, dir, name) {
            Some(code) => Ok(refused(code)),
            None => {
                self.store.put_row(dir.0, name.copy()?, file)?;
                Ok(Reply::Ok)
            }
        }
    }

    // Why a file can't have a further row here.
    fn link_fault(&self, file: NodeId, dir: NodeId, name: &Name) -> Option<Code>
        ensures { result ≡ link_fault self.now file.0 dir.0 name.now }
    {
        if !self.is_alive(file) {
            return Some(Code::NoEntry);
        }
        if self.is_directory(file) {
            return Some(Code::NotPermitted);
        }
        if let Some(code) = self.directory_fault(dir) {
            return Some(code);
        }
        if self.child(dir, name).is_some() {
            Some(Code::Exists)
        } else if self.store.named(file.0) >= MOST_LINKS {
            Some(Code::TooManyLinks)
        } else if self.is_full(dir, name) {
            Some(Code::DirFull)
        } else {
            None
        }
    }

    pub(super) fn unlink(&mut self, dir: NodeId, name: &Name) -> Reply
        ensures { (core : ℕ) → IsStep self.old core (call.Unlink dir name.now) result self.new }
    {
        if let Some(code) = self.directory_fault(dir) {
            return refused(code);
        }
        match self.child(dir, name) {
            Some(child) => self.unlink_child(dir, name, child),
            None => refused(Code::NoEntry),
        }
    }

    // Takes away the row of a file.
    fn unlink_child(&mut self, dir: NodeId, name: &Name, child: NodeId) -> Reply
        requires { row_of self.old dir.0 name.now ≡ Some child.0 }
        ensures { IsLine self.old (unlink_row self.old dir.0 name.now (Some child.0)) result self.new }
    {
        if self.is_directory(child) {
            return refused(Code::NotPermitted);
        }
        self.store.remove_row(dir.0, name, child);
        Reply::Ok
    }

    pub(super) fn rmdir(&mut self, dir: NodeId, name: &Name) -> Reply
        requires { IsSound self.old }
        ensures { (core : ℕ) → IsStep self.old core (call.Rmdir dir name.now) result self.new }
    {
        if let Some(code) = self.directory_fault(dir) {
            return refused(code);
        }
        match self.child(dir, name) {
            Some(child) => self.remove_directory(dir, name, child),
            None => refused(Code::NoEntry),
        }
    }

    // Takes away the row of an empty directory.
    fn remove_directory(&mut self, dir: NodeId, name: &Name, child: NodeId) -> Reply
        requires sound { IsSound self.old }
        requires row { row_of self.old dir.0 name.now ≡ Some child.0 }
        ensures { IsLine self.old (rmdir_row self.old dir.0 name.now (Some child.0)) result self.new }
    {
        if !self.is_directory(child) {
            return refused(Code::NotDir);
        }
        if self.store.inside(child.0) != 0 {
            return refused(Code::NotEmpty);
        }
        self.store.remove_row(dir.0, name, child);
        Reply::Ok
    }
}
