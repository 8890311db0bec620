ghost use Rattle.std.specs.Prelude.{◌≡◌, ◌+◌, ◌-◌, ◌<◌, ◌≤◌, ◌++◌, [], ◌∷◌, All, IsOk, OnOk, OnErr, length, slice_get, nat_lt, true, false};
ghost use Rattle.std.specs.List.Sorted.{IsPartitionPoint};
ghost use Rattle.std.specs.Option.{option_copied};
ghost use Rattle.keyed_list.specs.Ascending.{AscendBy, item_with, put_in, without};

use crate::{Keyed, Numbered};
use sfs_base::NoMemory;
use std::alloc::Global;
use std::marker::Model;

/// Items that ascend by their numbers, each number once. Contracts see the list, and the number
/// `spare` of items for which room is reserved: what is reserved is put in without memory.
#[derive(Drop)]
pub struct KeyedList<T: Numbered> {
    items: Vec<T>,
}

impl<T: Numbered> Model for KeyedList<T> {
    ghost use Rattle.std.specs.Prelude.{◌-◌, vec_len, vec_capacity};
    ghost use Rattle.sfs_base.specs.Lists.{Roomy, roomy_code};
    ghost use Rattle.keyed_list.specs.Ascending.{AscendBy};

    ghost Value = { Roomy T };

    ghost coded = { roomy_code T.code };

    ghost view = { λ list. record {
      items = list.items.items;
      spare = vec_capacity list.items - vec_len list.items;
    } };

    ghost invariant = { λ list. AscendBy T.number list.items.items };
}

impl<T: Keyed> KeyedList<T> {
    /// No item. It takes no memory.
    pub fn new(alloc: Global) -> Self
        ensures { result ≡ record { items = []; spare = 0 } }
    {
        KeyedList {
            items: Vec::new(alloc),
        }
    }

    /// The list of these items, which ascend by their numbers. It takes no memory.
    pub fn from_vec(items: Vec<T>) -> Self
        requires { AscendBy T.number items.items }
        ensures { result.items ≡ items.items }
    {
        KeyedList { items }
    }

    /// The items, ascending. It takes no memory.
    pub fn into_vec(self) -> Vec<T>
        ensures { result.items ≡ self.items }
    {
        self.items
    }

    /// Makes room for `count` more items at least, and never lowers it.
    pub fn reserve(&mut self, count: u32) -> Result<(), NoMemory>
        ensures ok { OnOk result (count ≤ self.new.spare) }
        ensures never_lowers { self.old.spare ≤ self.new.spare }
        ensures items { self.new.items ≡ self.old.items }
        ensures err { OnErr result (self.new ≡ self.old) }
    {
        self.items.reserve(count as usize)?;
        Ok(())
    }

    /// Puts an item last, whose number is above all others, into room that was reserved. It takes no
    /// memory.
    pub fn push(&mut self, item: T)
        requires spare { 0 < self.old.spare }
        requires above { All (λ other. T.number other < T.number item) self.old.items }
        ensures items { self.new.items ≡ self.old.items ++ item ∷ [] }
        ensures spare { self.new.spare + 1 ≡ self.old.spare }
    {
        self.items.push_reserved(item);
    }

    /// Takes the item with a number out of the list. `None` is for a number that none has. It takes no
    /// memory.
    pub fn take(&mut self, number: u32) -> Option<T>
        ensures value { result ≡ item_with T.number number self.old.items }
        ensures items { self.new.items ≡ without T.number number self.old.items }
        ensures spare { self.old.spare ≤ self.new.spare }
    {
        match self.items.binary_search_by_key(&number, |item| item.key()) {
            Ok(at) => Some(self.items.remove(at)),
            Err(_) => None,
        }
    }

    /// The item at this place of the list, from 0 on. `None` is past the last.
    pub fn get(&self, place: u64) -> Option<&T>
        ensures { option_copied result ≡ slice_get self.now.items place }
    {
        self.items.get(place as usize)
    }

    /// All items.
    pub fn as_slice(&self) -> &[T]
        ensures items { result.now ≡ self.now.items }
        ensures ascending { AscendBy T.number self.now.items }
    {
        &self.items
    }

    /// The item with a number.
    pub fn find(&self, number: u32) -> Option<&T>
        ensures { option_copied result ≡ item_with T.number number self.now.items }
    {
        match self.items.binary_search_by_key(&number, |item| item.key()) {
            Ok(at) => Some(&self.items[at]),
            Err(_) => None,
        }
    }
}

impl<T: Keyed + Drop> KeyedList<T> {
    /// Puts an item in whose number no other has. Want of memory leaves the list as it is; room that was
    /// reserved lets it not come.
    pub fn add(&mut self, item: T) -> Result<(), NoMemory>
        requires { item_with T.number (T.number item) self.old.items ≡ None }
        ensures ok { OnOk result (self.new.items ≡ put_in T.number item self.old.items) }
        ensures err { OnErr result (self.new.items ≡ self.old.items) }
        ensures reserved { 0 < self.old.spare → IsOk result }
        ensures spare { self.old.spare ≤ self.new.spare + 1 }
    {
        let number = item.key();
        let place = place_of(&self.items, number);
        self.items.insert(place, item)?;
        Ok(())
    }
}

// How many items have lesser numbers.
fn place_of<T: Keyed>(items: &[T], number: u32) -> usize
    requires { AscendBy T.number items.now }
    ensures bound { result ≤ length items.now }
    ensures parted { IsPartitionPoint (λ one. nat_lt (T.number one) number ≡ true) (λ one. nat_lt (T.number one) number ≡ false) items.now result }
{
    items.partition_point(|item| item.key() < number)
}
