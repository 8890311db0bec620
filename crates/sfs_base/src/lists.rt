ghost use Rattle.std.specs.Prelude.{◌≡◌, ◌+◌, ◌-◌, ◌<◌, ◌≤◌, ◌==◌, [], ◌∷◌, ◌++◌, length, slice_get, vec_len, vec_capacity, IfOk, OnOk, OnErr};
ghost use Rattle.std.specs.Option.{option_copied};

use crate::{NoMemory, NodeId};
use std::alloc::Global;
use std::marker::Model;

/// Nodes, in an order that their user says.
pub type NodeList = RoomyList<NodeId>;

/// Numbers of inodes.
pub type InodeList = RoomyList<u32>;

/// Numbers of blocks.
pub type BlockList = RoomyList<u32>;

/// A list for steps that may not be refused memory: room is reserved while a step can still be
/// called off, and what was reserved is pushed without memory. Contracts see the items and the
/// number `spare` of pushes that are reserved.
#[derive(Drop)]
pub struct RoomyList<T> {
    items: Vec<T>,
}

impl<T> Model for RoomyList<T> {
    ghost use Rattle.std.specs.Prelude.{◌-◌, vec_len, vec_capacity};
    ghost use Rattle.sfs_base.specs.Lists.{Roomy, roomy_code};

    ghost Value = { Roomy T };

    ghost coded = { roomy_code T.code };

    ghost view = { λ list. record {
      items = list.items.items;
      spare = vec_capacity list.items - vec_len list.items;
    } };
}

impl<T> RoomyList<T> {
    /// The empty list. It takes no memory.
    pub fn new(alloc: Global) -> Self
        ensures { result ≡ record { items = []; spare = 0 } }
    {
        RoomyList {
            items: Vec::new(alloc),
        }
    }

    /// Makes room for `count` more items at least, and never lowers it.
    pub fn reserve(&mut self, count: u32) -> Result<(), NoMemory>
        ensures ok { OnOk result (count ≤ self.new.spare) }
        ensures never_lowers { self.old.spare ≤ self.new.spare }
        ensures items { self.new.items ≡ self.old.items }
        ensures err { OnErr result (self.new ≡ self.old) }
    {
        self.items.reserve(count as usize)?;
        Ok(())
    }

    /// Puts the item last, into room that was reserved. It takes no memory.
    pub fn push(&mut self, item: T)
        requires { 0 < self.old.spare }
        ensures items { self.new.items ≡ self.old.items ++ item ∷ [] }
        ensures spare { self.new.spare + 1 ≡ self.old.spare }
    {
        self.items.push_reserved(item);
    }

    /// The item at this place, from 0 on. `None` is past the last.
    pub fn get(&self, place: u64) -> Option<&T>
        ensures { option_copied result ≡ slice_get self.now.items place }
    {
        self.items.get(place as usize)
    }

    /// How many items there are.
    pub fn len(&self) -> u64
        ensures { result ≡ length self.now.items }
    {
        self.items.len() as u64
    }

    /// Whether there are none.
    pub fn is_empty(&self) -> bool
        ensures { result ≡ (length self.now.items == 0) }
    {
        self.items.is_empty()
    }

    /// The items.
    pub fn as_slice(&self) -> &[T]
        ensures { result.now ≡ self.now.items }
    {
        &self.items
    }

    /// The list of these items, with the room that the vector has left. It takes no memory.
    pub fn from_vec(items: Vec<T>) -> Self
        ensures { result ≡ record {
          items = items.items;
          spare = vec_capacity items - vec_len items;
        } }
    {
        RoomyList { items }
    }

    /// The items as a vector. It takes no memory.
    pub fn into_vec(self) -> Vec<T>
        ensures { result.items ≡ self.items }
    {
        self.items
    }
}

impl<T: Copy> RoomyList<T> {
    /// A list of the same items.
    pub fn copy(&self) -> Result<Self, NoMemory>
        ensures ok { IfOk result (λ list. list.items ≡ self.now.items) }
    {
        Ok(RoomyList {
            items: Vec::from_slice(*self.items.allocator(), &self.items)?,
        })
    }
}
