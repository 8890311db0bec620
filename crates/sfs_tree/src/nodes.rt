// Each node lies at its number.
ghost use Rattle.std.specs.Prelude.{◌≡◌, ◌+◌, ◌<◌, ◌≤◌, ◌^◌, length, None, option_map, IfOk, IfSome, IfNone, IsSome, OnOk, OnErr};
ghost use Rattle.std.specs.FinMap as finmap;
ghost use Rattle.tree_laws.specs.Tree.{is_directory_kind};
ghost use Rattle.sfs_tree.specs.Counts.{is_directory_in};
ghost use Rattle.tree_laws.specs.Effect.{Puts, Resizes, with_edit};
ghost use Rattle.sfs_tree.specs.Nodes.{node_of};

use crate::file_bytes::{put_bytes, set_size};
use sfs_base::{Kind, NoMemory};
use std::alloc::Global;
use std::marker::Model;

/// A node as it is stored.
#[derive(Drop)]
pub struct NodeData {
    pub kind: Kind,
    pub bytes: Vec<u8>,
}

impl NodeData {
    /// Whether it is a directory.
    pub fn is_directory(&self) -> bool
        ensures { result ≡ is_directory_kind self.now.kind }
    {
        match self.kind {
            Kind::Directory => true,
            Kind::File => false,
        }
    }
}

impl NodeData {
    ghost use Rattle.sfs_tree.specs.Nodes.{node_of};
    ghost use Rattle.tree_laws.specs.Effect.{Puts, Resizes, edited};

    /// An equal node.
    pub fn copy(&self) -> Result<NodeData, NoMemory>
        ensures { IfOk result (λ node. node_of node ≡ node_of self.now) }
    {
        Ok(NodeData {
            kind: self.kind,
            bytes: self.bytes.clone()?,
        })
    }

    /// Puts bytes from byte `at` on.
    pub fn write(&mut self, at: usize, written: &[u8]) -> Result<(), NoMemory>
        requires { at + length written.now < 2 ^ 32 }
        ensures ok { OnOk result (node_of self.new
            ≡ record (node_of self.old) { bytes = edited (Puts at written.now) (node_of self.old).bytes }) }
        ensures err { OnErr result (node_of self.new ≡ node_of self.old) }
    {
        put_bytes(&mut self.bytes, at, written)
    }

    /// Gives it this size.
    pub fn resize(&mut self, size: usize) -> Result<(), NoMemory>
        ensures ok { OnOk result (node_of self.new
            ≡ record (node_of self.old) { bytes = edited (Resizes size) (node_of self.old).bytes }) }
        ensures err { OnErr result (node_of self.new ≡ node_of self.old) }
    {
        set_size(&mut self.bytes, size)
    }
}

/// The nodes of a tree.
#[derive(Drop)]
pub struct Nodes {
    places: Vec<Option<NodeData>>,
}

impl Model for Nodes {
    ghost use Rattle.std.specs.Prelude.{length};
    ghost use Rattle.sfs_tree.specs.NodesState.{NodesState, nodes_code};

    ghost Value = { NodesState };

    ghost coded = { nodes_code };

    ghost use Rattle.sfs_tree.specs.Nodes.{numbered};

    ghost view = { λ s. record { nodes = numbered s.places.items; places = length s.places.items } };
}

impl Nodes {
    ghost use Rattle.sfs_tree.specs.Nodes.{node_of};
    ghost use Rattle.tree_laws.specs.Least.{IsLeast, NoneFrom};

    /// No nodes, and no places.
    pub fn new(alloc: Global) -> Self
        ensures nodes { result.nodes ≡ finmap.empty }
        ensures places { result.places ≡ 0 }
    {
        Nodes {
            places: Vec::new(alloc),
        }
    }

    /// Equal nodes, and as many places.
    pub fn copy(&self, alloc: Global) -> Result<Nodes, NoMemory>
        ensures { IfOk result (λ nodes. nodes ≡ self.now) }
    {
        let mut places = Vec::new(alloc);
        for place in &self.places {
            places.push(copy_place(place)?)?;
        }
        Ok(Nodes { places })
    }

    /// How many numbers have a place.
    pub fn places(&self) -> usize
        ensures { result ≡ self.now.places }
    {
        self.places.len()
    }

    /// One more place, behind the last, of no node.
    pub fn grow(&mut self) -> Result<(), NoMemory>
        ensures ok { OnOk result (self.new.places ≡ self.old.places + 1) }
        ensures err { OnErr result (self.new.places ≡ self.old.places) }
        ensures nodes { self.new.nodes ≡ self.old.nodes }
    {
        self.places.push(None)?;
        Ok(())
    }

    /// The node with this number.
    pub fn get(&self, number: u32) -> Option<&NodeData>
        ensures { option_map (λ node. node_of node.now) result ≡ finmap.get self.now.nodes number }
    {
        let place = number as usize;
        if place >= self.places.len() {
            return None;
        }
        match &self.places[place] {
            Some(node) => Some(node),
            None => None,
        }
    }

    /// Whether the node with this number is a directory.
    pub fn is_directory(&self, number: u32) -> bool
        ensures { result ≡ is_directory_in self.now.nodes number }
    {
        match self.get(number) {
            Some(node) => node.is_directory(),
            None => false,
        }
    }

    /// The least number of a node from `first` on.
    pub fn next_from(&self, first: usize) -> Option<u32>
        requires { self.now.places ≤ 81920 }
        ensures found { IfSome result (λ number. IsLeast self.now.nodes first number) }
        ensures none { IfNone result (NoneFrom self.now.nodes first) }
    {
        for place in first..self.places.len() {
            if self.places[place].is_some() {
                return Some(place as u32);
            }
        }
        None
    }

    /// Puts a node at its number.
    pub fn put(&mut self, number: u32, node: NodeData)
        requires { number < self.old.places }
        ensures nodes { self.new.nodes ≡ finmap.insert self.old.nodes number (node_of node) }
        ensures places { self.new.places ≡ self.old.places }
    {
        self.places[number as usize] = Some(node);
    }

    /// Puts bytes into a node from byte `at` on, if there is a node of this number.
    pub fn write(&mut self, number: u32, at: usize, written: &[u8]) -> Result<(), NoMemory>
        requires { at + length written.now < 2 ^ 32 }
        ensures ok { OnOk result (self.new.nodes
            ≡ with_edit self.old.nodes number (Puts at written.now) (finmap.get self.old.nodes number)) }
        ensures err { OnErr result (self.new.nodes ≡ self.old.nodes) }
        ensures places { self.new.places ≡ self.old.places }
    {
        let place = number as usize;
        if place >= self.places.len() {
            return Ok(());
        }
        match &mut self.places[place] {
            Some(node) => node.write(at, written)?,
            None => {}
        }
        Ok(())
    }

    /// Gives a node this size, if there is a node of this number.
    pub fn resize(&mut self, number: u32, size: usize) -> Result<(), NoMemory>
        ensures ok { OnOk result (self.new.nodes
            ≡ with_edit self.old.nodes number (Resizes size) (finmap.get self.old.nodes number)) }
        ensures err { OnErr result (self.new.nodes ≡ self.old.nodes) }
        ensures places { self.new.places ≡ self.old.places }
    {
        let place = number as usize;
        if place >= self.places.len() {
            return Ok(());
        }
        match &mut self.places[place] {
            Some(node) => node.resize(size)?,
            None => {}
        }
        Ok(())
    }
}

// What lies at a place, once more.
fn copy_place(place: &Option<NodeData>) -> Result<Option<NodeData>, NoMemory>
    ensures { IfOk result (λ copied. option_map node_of copied ≡ option_map node_of place.now) }
{
    match place {
        Some(node) => Ok(Some(node.copy()?)),
        None => Ok(None),
    }
}
