// Rename. What can be refused memory is done first: the new row, where none is there. A row that is there gets the
// child in place of its own, which takes no memory.
ghost use Rattle.std.specs.Prelude.{◌≡◌, ◌==◌, ◌&&◌, ◌||◌, ◌<◌, ◌≤◌, ℕ, List, None, Some, true, IfOk, OnErr};
ghost use Rattle.std.specs.FinMap as finmap;
ghost use Rattle.tree_laws.specs.declared.call.Call.TheVariants as call;

use super::Tree;
use super::faults::refused;
use sfs_base::{Name, NoMemory, NodeId};
use tree_laws::{Code, Reply};

impl Tree {
    ghost use Rattle.tree_laws.specs.Tree.{row_of, is_directory, lies_below};
    ghost use Rattle.tree_laws.specs.NameRow.{number_of};
    ghost use Rattle.tree_laws.specs.Sound.{IsSound};
    ghost use Rattle.tree_laws.specs.Verdict.{directory_fault, move_row, move_fault, place_fault};
    ghost use Rattle.std.specs.Option.{option_or};
    ghost use Rattle.tree_laws.specs.Step.{IsStep, IsLine};

    pub(super) fn rename(
        &mut self,
        dir: NodeId,
        name: &Name,
        to_dir: NodeId,
        to_name: &Name,
    ) -> Result<Reply, NoMemory>
        requires { IsSound self.old }
        ensures ok { IfOk result (λ reply. (core : ℕ) → IsStep self.old core (call.Rename dir name.now to_dir to_name.now) reply self.new) }
        ensures err { OnErr result (self.new ≡ self.old) }
    {
        if let Some(code) = self.either_fault(dir, to_dir) {
            return Ok(refused(code));
        }
        match self.child(dir, name) {
            Some(child) => self.move_child(dir, name, to_dir, to_name, child),
            None => Ok(refused(Code::NoEntry)),
        }
    }

    // Why one of two directories can't be used.
    fn either_fault(&self, dir: NodeId, to_dir: NodeId) -> Option<Code>
        ensures { result ≡ option_or (directory_fault self.now dir.0) (directory_fault self.now to_dir.0) }
    {
        match self.directory_fault(dir) {
            Some(code) => Some(code),
            None => self.directory_fault(to_dir),
        }
    }

    // Moves the child of a row to another row.
    fn move_child(
        &mut self,
        dir: NodeId,
        name: &Name,
        to_dir: NodeId,
        to_name: &Name,
        child: NodeId,
    ) -> Result<Reply, NoMemory>
        requires sound { IsSound self.old }
        requires row { row_of self.old dir.0 name.now ≡ Some child.0 }
        requires directory { is_directory self.old to_dir.0 ≡ true }
        ensures ok { IfOk result (λ reply. IsLine self.old (move_row self.old dir.0 name.now to_dir.0 to_name.now (Some child.0)) reply self.new) }
        ensures err { OnErr result (self.new ≡ self.old) }
    {
        let there = self.child(to_dir, to_name);
        if there == Some(child) {
            return Ok(Reply::Ok);
        }
        if let Some(code) = self.move_fault(child, to_dir, to_name, there) {
            return Ok(refused(code));
        }
        match there {
            Some(there) => self
                .store
                .move_onto(dir.0, name, to_dir.0, to_name, child, there),
            None => self
                .store
                .move_row(dir.0, name, to_dir.0, to_name.copy()?, child)?,
        }
        Ok(Reply::Ok)
    }

    // Why a child can't move to a row, where something is there or not.
    fn move_fault(
        &self,
        child: NodeId,
        to_dir: NodeId,
        to_name: &Name,
        there: Option<NodeId>,
    ) -> Option<Code>
        requires sound { IsSound self.now }
        requires directory { is_directory self.now to_dir.0 ≡ true }
        requires there { number_of there ≡ row_of self.now to_dir.0 to_name.now }
        ensures { result ≡ move_fault self.now child.0 to_dir.0 to_name.now }
    {
        if self.is_within(to_dir, child) {
            return Some(Code::Invalid);
        }
        match there {
            Some(there) => self.onto_fault(child, there),
            None => self.room_fault(to_dir, to_name),
        }
    }

    // Whether the child is a directory, and the other directory is this one or lies below it.
    fn is_within(&self, to_dir: NodeId, child: NodeId) -> bool
        requires sound { IsSound self.now }
        requires directory { is_directory self.now to_dir.0 ≡ true }
        ensures { result ≡ (is_directory self.now child.0
            && (to_dir.0 == child.0 || lies_below self.now to_dir.0 child.0)) }
    {
        self.is_directory(child) && (to_dir.0 == child.0 || self.lies_below(to_dir, child))
    }

    // Why a child can't take the place of another.
    fn onto_fault(&self, child: NodeId, there: NodeId) -> Option<Code>
        ensures { (to_dir : ℕ) (to_name : List ℕ) → result ≡ place_fault self.now child.0 to_dir to_name (Some there.0) }
    {
        let is_directory = self.is_directory(there);
        if self.is_directory(child) && !is_directory {
            Some(Code::NotDir)
        } else if !self.is_directory(child) && is_directory {
            Some(Code::IsDir)
        } else if is_directory && self.store.inside(there.0) != 0 {
            Some(Code::NotEmpty)
        } else {
            None
        }
    }

    // Why a further row has no place.
    fn room_fault(&self, to_dir: NodeId, to_name: &Name) -> Option<Code>
        ensures { (child : ℕ) → result ≡ place_fault self.now child to_dir.0 to_name.now None }
    {
        if self.is_full(to_dir, to_name) {
            Some(Code::DirFull)
        } else {
            None
        }
    }

    // Whether a directory lies below another.
    fn lies_below(&self, node: NodeId, directory: NodeId) -> bool
        requires sound { IsSound self.now }
        requires directory { is_directory self.now node.0 ≡ true }
        ensures { result ≡ lies_below self.now node.0 directory.0 }
    {
        let mut place = node.0;
        let mut steps = self.store.total();
        while steps > 0 {
            match self.store.holder(place) {
                Some(holder) if holder == directory.0 => return true,
                Some(holder) => place = holder,
                None => return false,
            }
            steps -= 1;
        }
        false
    }
}
