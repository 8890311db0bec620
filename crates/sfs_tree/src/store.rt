// The nodes, the rows, and what is counted of the rows. A change that can be refused memory is refused before any part changes.
ghost use Rattle.std.specs.Prelude.{◌≡◌, ◌≢◌, ◌+◌, ◌*◌, ◌<◌, ◌≤◌, ◌^◌, length, None, Some, true, option_map, IfOk, IfSome, IfNone, IsSome, OnOk, OnErr};
ghost use Rattle.std.specs.FinMap as finmap;
ghost use Rattle.std.specs.List as list;
ghost use Rattle.sfs_base.specs.Name.{bucket};
ghost use Rattle.tree_laws.specs.Tree.{count_of, names_it, names_of, bucket_rows};

use crate::counts::{Counts, number_at};
use crate::nodes::{NodeData, Nodes};
use crate::rows::Rows;
use sfs_base::{Name, NoMemory, NodeId};
use std::alloc::Global;
use std::marker::Model;
use tree_laws::NameMap;

/// The rows and nodes of a tree.
#[derive(Drop)]
pub struct Store {
    nodes: Nodes,
    counts: Counts,
    rows: Rows,
}

impl Model for Store {
    ghost use Rattle.sfs_tree.specs.StoreState.{StoreState, store_code};

    ghost Value = { StoreState };

    ghost coded = { store_code };

    ghost use Rattle.sfs_tree.specs.Store.{IsStored};

    ghost view = { λ s. record { rows = s.rows.rows; nodes = s.nodes.nodes; places = s.nodes.places } };

    ghost invariant = { λ s. IsStored s.nodes s.counts s.rows };
}

impl Store {
    ghost use Rattle.sfs_tree.specs.Nodes.{node_of};
    ghost use Rattle.tree_laws.specs.Least.{IsLeast, NoneFrom};
    ghost use Rattle.tree_laws.specs.NameRow.{number_of};
    ghost use Rattle.sfs_tree.specs.Counts.{is_directory_in, count_directories};

    /// No nodes and no rows.
    pub fn new(alloc: Global) -> Self
        ensures rows { result.rows ≡ finmap.empty }
        ensures nodes { result.nodes ≡ finmap.empty }
        ensures places { result.places ≡ 0 }
    {
        Store {
            nodes: Nodes::new(alloc),
            counts: Counts::new(alloc),
            rows: Rows::new(alloc),
        }
    }

    /// An equal store.
    pub fn copy(&self, alloc: Global) -> Result<Store, NoMemory>
        ensures { IfOk result (λ store. store ≡ self.now) }
    {
        Ok(Store {
            nodes: self.nodes.copy(alloc)?,
            counts: self.counts.copy()?,
            rows: self.rows.copy(alloc)?,
        })
    }

    /// Makes places for the nodes below a number.
    pub fn grow(&mut self, alloc: Global, count: usize) -> Result<(), NoMemory>
        requires { count ≤ 81920 }
        ensures ok { OnOk result (count ≤ self.new.places) }
        ensures places { self.old.places ≤ self.new.places }
        ensures rows { self.new.rows ≡ self.old.rows }
        ensures nodes { self.new.nodes ≡ self.old.nodes }
    {
        while self.nodes.places() < count {
            self.add_place(alloc)?;
        }
        Ok(())
    }

    // One more place, behind the last.
    fn add_place(&mut self, alloc: Global) -> Result<(), NoMemory>
        requires { self.old.places < 81920 }
        ensures ok { OnOk result (self.new.places ≡ self.old.places + 1) }
        ensures err { OnErr result (self.new.places ≡ self.old.places) }
        ensures rows { self.new.rows ≡ self.old.rows }
        ensures nodes { self.new.nodes ≡ self.old.nodes }
    {
        self.rows.grow(alloc, self.nodes.places() + 1)?;
        self.counts.grow()?;
        self.nodes.grow()?;
        Ok(())
    }

    /// The node with this number.
    pub fn node(&self, number: u32) -> Option<&NodeData>
        ensures { option_map (λ node. node_of node.now) result ≡ finmap.get self.now.nodes number }
    {
        self.nodes.get(number)
    }

    /// The least number of a node from `first` on.
    pub fn next_from(&self, first: usize) -> Option<u32>
        ensures found { IfSome result (λ number. IsLeast self.now.nodes first number) }
        ensures none { IfNone result (NoneFrom self.now.nodes first) }
    {
        self.nodes.next_from(first)
    }

    /// Whether the node with this number is a directory.
    pub fn is_directory(&self, number: u32) -> bool
        ensures { result ≡ is_directory_in self.now.nodes number }
    {
        self.nodes.is_directory(number)
    }

    /// How many rows name the node with this number.
    pub fn named(&self, number: u32) -> u32
        ensures { result ≡ count_of self.now.rows number }
    {
        number_at(&self.counts.named, number)
    }

    /// How many rows the directory with this number has.
    pub fn inside(&self, number: u32) -> u32
        ensures { result ≡ finmap.len (names_of number self.now.rows) }
    {
        number_at(&self.counts.inside, number)
    }

    /// How many rows of the directory with this number name directories.
    pub fn directories(&self, number: u32) -> u32
        ensures small { result ≤ 2684354560 }
        ensures count { result ≡ count_directories self.now.rows self.now.nodes number }
    {
        number_at(&self.counts.directories, number)
    }

    /// The directory in which the row of a directory stands, which at most one row names.
    pub fn holder(&self, number: u32) -> Option<u32>
        requires directory { is_directory_in self.now.nodes number ≡ true }
        requires once { count_of self.now.rows number ≤ 1 }
        ensures { result ≡ option_map (λ row. row.0.0) (list.find (names_it number) (finmap.entries self.now.rows)) }
    {
        if number_at(&self.counts.named, number) == 0 {
            return None;
        }
        Some(number_at(&self.counts.holders, number))
    }

    /// How many rows there are.
    pub fn total(&self) -> u32
        ensures { result ≡ finmap.len self.now.rows }
    {
        self.counts.total
    }

    /// One of a directory's buckets, if it has a place.
    pub fn bucket(&self, directory: u32, number: u8) -> Option<&NameMap>
        requires { number < 8 }
        ensures found { IfSome result (λ map. map.now ≡ bucket_rows directory number self.now.rows) }
        ensures none { IfNone result (bucket_rows directory number self.now.rows ≡ finmap.empty) }
    {
        self.rows.bucket(directory, number)
    }

    /// The child of the directory's row with this name.
    pub fn child(&self, directory: u32, name: &Name) -> Option<NodeId>
        ensures { number_of result ≡ finmap.get self.now.rows (directory, name.now) }
    {
        self.rows.get(directory, name)
    }
}

impl Store {
    ghost use Rattle.sfs_tree.specs.Nodes.{node_of};
    ghost use Rattle.sfs_tree.specs.Counts.{is_directory_in};
    ghost use Rattle.tree_laws.specs.Effect.{Puts, Resizes, with_edit};
    ghost use Rattle.sfs_tree.specs.StoreState.{HasPlace};

    /// Puts a node at its number.
    pub fn put_node(&mut self, number: u32, node: NodeData)
        requires place { number < self.old.places }
        requires absent { finmap.get self.old.nodes number ≡ None }
        ensures rows { self.new.rows ≡ self.old.rows }
        ensures nodes { self.new.nodes ≡ finmap.insert self.old.nodes number (node_of node) }
        ensures places { self.new.places ≡ self.old.places }
    {
        self.nodes.put(number, node);
    }

    /// Puts a row, whose name no row of the directory has, into its bucket.
    pub fn put_row(&mut self, directory: u32, name: Name, child: NodeId) -> Result<(), NoMemory>
        requires directory { HasPlace self.old directory }
        requires child { IsSome (finmap.get self.old.nodes child.0) }
        requires absent { finmap.get self.old.rows (directory, name) ≡ None }
        requires room { finmap.len (bucket_rows directory (bucket name) self.old.rows) < 4096 }
        ensures ok { OnOk result (self.new.rows ≡ finmap.insert self.old.rows (directory, name) child.0) }
        ensures err { OnErr result (self.new.rows ≡ self.old.rows) }
        ensures nodes { self.new.nodes ≡ self.old.nodes }
        ensures places { self.new.places ≡ self.old.places }
    {
        let is_directory = self.nodes.is_directory(child.0);
        self.rows.insert(directory, name, child)?;
        self.counts.add(directory, child.0, is_directory);
        Ok(())
    }

    /// Puts a row, as `put_row` does, and its child, which is a new node.
    pub fn put_both(
        &mut self,
        directory: u32,
        name: Name,
        child: NodeId,
        node: NodeData,
    ) -> Result<(), NoMemory>
        requires directory { HasPlace self.old directory }
        requires place { child.0 < self.old.places }
        requires new { finmap.get self.old.nodes child.0 ≡ None }
        requires absent { finmap.get self.old.rows (directory, name) ≡ None }
        requires room { finmap.len (bucket_rows directory (bucket name) self.old.rows) < 4096 }
        ensures ok { OnOk result (self.new.rows ≡ finmap.insert self.old.rows (directory, name) child.0) }
        ensures err { OnErr result (self.new.rows ≡ self.old.rows) }
        ensures nodes { OnOk result (self.new.nodes ≡ finmap.insert self.old.nodes child.0 (node_of node)) }
        ensures no_node { OnErr result (self.new.nodes ≡ self.old.nodes) }
        ensures places { self.new.places ≡ self.old.places }
    {
        let is_directory = node.is_directory();
        self.rows.insert(directory, name, child)?;
        self.nodes.put(child.0, node);
        self.counts.add(directory, child.0, is_directory);
        Ok(())
    }

    /// Takes away a row. Its child is a directory that no other row names, or no directory.
    pub fn remove_row(&mut self, directory: u32, name: &Name, child: NodeId)
        requires row { finmap.get self.old.rows (directory, name.now) ≡ Some child.0 }
        requires once { is_directory_in self.old.nodes child.0 ≡ true → count_of self.old.rows child.0 ≡ 1 }
        ensures rows { self.new.rows ≡ finmap.remove self.old.rows (directory, name.now) }
        ensures nodes { self.new.nodes ≡ self.old.nodes }
        ensures places { self.new.places ≡ self.old.places }
    {
        let is_directory = self.nodes.is_directory(child.0);
        self.rows.remove(directory, name);
        self.counts.take(directory, child.0, is_directory);
    }

    /// Takes away a row, and puts one for its child whose name no row of the other directory has.
    pub fn move_row(
        &mut self,
        directory: u32,
        name: &Name,
        to_directory: u32,
        to_name: Name,
        child: NodeId,
    ) -> Result<(), NoMemory>
        requires row { finmap.get self.old.rows (directory, name.now) ≡ Some child.0 }
        requires once { is_directory_in self.old.nodes child.0 ≡ true → count_of self.old.rows child.0 ≡ 1 }
        requires directory { HasPlace self.old to_directory }
        requires absent { finmap.get self.old.rows (to_directory, to_name) ≡ None }
        requires room { finmap.len (bucket_rows to_directory (bucket to_name) self.old.rows) < 4096 }
        ensures ok { OnOk result (self.new.rows
            ≡ finmap.insert (finmap.remove self.old.rows (directory, name.now)) (to_directory, to_name) child.0) }
        ensures err { OnErr result (self.new.rows ≡ self.old.rows) }
        ensures nodes { self.new.nodes ≡ self.old.nodes }
        ensures places { self.new.places ≡ self.old.places }
    {
        let is_directory = self.nodes.is_directory(child.0);
        self.rows.insert(to_directory, to_name, child)?;
        self.rows.remove(directory, name);
        self.counts.take(directory, child.0, is_directory);
        self.counts.add(to_directory, child.0, is_directory);
        Ok(())
    }

    /// Takes away a row, and gives its child to a row that is there in place of the child that this one has.
    /// Each of the two is a directory that no other row names, or no directory.
    pub fn move_onto(
        &mut self,
        directory: u32,
        name: &Name,
        to_directory: u32,
        to_name: &Name,
        child: NodeId,
        there: NodeId,
    )
        requires row { finmap.get self.old.rows (directory, name.now) ≡ Some child.0 }
        requires once { is_directory_in self.old.nodes child.0 ≡ true → count_of self.old.rows child.0 ≡ 1 }
        requires other_row { finmap.get self.old.rows (to_directory, to_name.now) ≡ Some there.0 }
        requires other_once { is_directory_in self.old.nodes there.0 ≡ true → count_of self.old.rows there.0 ≡ 1 }
        requires apart { child.0 ≢ there.0 }
        ensures rows { self.new.rows
            ≡ finmap.insert (finmap.remove self.old.rows (directory, name.now)) (to_directory, to_name.now) child.0 }
        ensures nodes { self.new.nodes ≡ self.old.nodes }
        ensures places { self.new.places ≡ self.old.places }
    {
        let is_directory = self.nodes.is_directory(child.0);
        let was_directory = self.nodes.is_directory(there.0);
        self.rows.replace(to_directory, to_name, child);
        self.rows.remove(directory, name);
        self.counts.take(to_directory, there.0, was_directory);
        self.counts.take(directory, child.0, is_directory);
        self.counts.add(to_directory, child.0, is_directory);
    }

    /// Puts bytes into a node from byte `at` on, if there is a node of this number.
    pub fn write(&mut self, number: u32, at: usize, written: &[u8]) -> Result<(), NoMemory>
        requires { at + length written.now < 2 ^ 32 }
        ensures ok { OnOk result (self.new.nodes
            ≡ with_edit self.old.nodes number (Puts at written.now) (finmap.get self.old.nodes number)) }
        ensures err { OnErr result (self.new.nodes ≡ self.old.nodes) }
        ensures rows { self.new.rows ≡ self.old.rows }
        ensures places { self.new.places ≡ self.old.places }
    {
        self.nodes.write(number, at, written)?;
        Ok(())
    }

    /// Gives a node this size, if there is a node of this number.
    pub fn resize(&mut self, number: u32, size: usize) -> Result<(), NoMemory>
        ensures ok { OnOk result (self.new.nodes
            ≡ with_edit self.old.nodes number (Resizes size) (finmap.get self.old.nodes number)) }
        ensures err { OnErr result (self.new.nodes ≡ self.old.nodes) }
        ensures rows { self.new.rows ≡ self.old.rows }
        ensures places { self.new.places ≡ self.old.places }
    {
        self.nodes.resize(number, size)?;
        Ok(())
    }
}
