// Which of the nodes that a commit concerns are directories.
ghost use Rattle.std.specs.Prelude.{◌≡◌, ◌++◌, IfOk, OnOk, option_to_list};
ghost use Rattle.std.specs.List.Sorted.{IsStrictlyIncreasing};
ghost use Rattle.tree_laws.specs.Tree.{kind_if};
ghost use Rattle.disk_change.specs.Directory.{is_among};
ghost use Rattle.disk_change.specs.Links.{directories_concerned, directory_old, directory_entering};

use crate::enter::{Enter, EnterList};
use crate::old::{OldDisk, OldEntry};
use sfs_base::{Kind, NoMemory, NodeId};
use std::alloc::Global;
use std::marker::Model;

// The bytes of a file's and of a directory's record.
pub(crate) const FILE: u8 = 1;

pub(crate) const DIRECTORY: u8 = 2;

// The directories among the nodes that a commit concerns: those that have an inode, and those that
// get one.
#[derive(Drop)]
pub(crate) struct Directories {
    old: Vec<u32>,
    entering: Vec<u32>,
}

impl Model for Directories {
    ghost use Rattle.std.specs.Prelude.{ℕ, List, ◌++◌};
    ghost use Rattle.std.specs.List.Sorted.{IsStrictlyIncreasing};

    ghost Value = { List ℕ };

    ghost view = { λ d. d.old.items ++ d.entering.items };

    ghost invariant = { λ d. IsStrictlyIncreasing d.old.items × IsStrictlyIncreasing d.entering.items };
}

impl Directories {
    // The directories among these nodes.
    pub(crate) fn of(
        alloc: Global,
        old: &OldDisk,
        enter: &EnterList,
    ) -> Result<Directories, NoMemory>
        ensures { IfOk result (λ directories. directories ≡ directories_concerned old.now.items enter.now.items) }
    {
        let mut directories = Vec::new(alloc);
        for entry in old.as_slice() {
            push_some(&mut directories, directory_among_old(entry))?;
        }
        let mut entering = Vec::new(alloc);
        for one in enter.as_slice() {
            push_some(&mut entering, directory_among_entering(*one))?;
        }
        Ok(Directories {
            old: directories,
            entering,
        })
    }

    // What kind of node this is.
    pub(crate) fn kind_of(&self, node: NodeId) -> Kind
        ensures { result ≡ kind_if (is_among self.now node.0) }
    {
        if is_in(&self.old, node.0) || is_in(&self.entering, node.0) {
            Kind::Directory
        } else {
            Kind::File
        }
    }
}

// The node of an entry that is a directory.
fn directory_among_old(entry: &OldEntry) -> Option<u32>
    ensures { result ≡ directory_old entry.now }
{
    if entry.old.meta.kind == DIRECTORY {
        Some(entry.node.0)
    } else {
        None
    }
}

// The node of a directory that enters.
fn directory_among_entering(one: Enter) -> Option<u32>
    ensures { result ≡ directory_entering one }
{
    match one.kind {
        Kind::Directory => Some(one.node.0),
        Kind::File => None,
    }
}

// Puts a number last, where there is one.
pub(crate) fn push_some(numbers: &mut Vec<u32>, number: Option<u32>) -> Result<(), NoMemory>
    ensures { OnOk result (numbers.new.items ≡ numbers.old.items ++ option_to_list number) }
{
    if let Some(number) = number {
        numbers.push(number)?;
    }
    Ok(())
}

// Whether a number is in an ascending list.
fn is_in(numbers: &[u32], number: u32) -> bool
    requires { IsStrictlyIncreasing numbers.now }
    ensures { result ≡ is_among numbers.now number }
{
    match numbers.binary_search(&number) {
        Ok(_) => true,
        Err(_) => false,
    }
}
