ghost use Rattle.std.specs.Prelude.{◌≡◌, ◌+◌, ◌<◌, ◌≤◌, ◌==◌, [], ◌∷◌, ◌++◌, find, slice_get, slice_index, slice_set, replicate, length, All, IfOk, OnOk, OnErr};
ghost use Rattle.std.specs.Option.{option_copied};
ghost use Rattle.sfs_image.specs.Inode.{pointers_of, pointers_bytes};

use byteorder::{ByteOrder, LittleEndian};
use sfs_base::NoMemory;
use std::alloc::Global;
use std::marker::Model;

/// How many pointers an indirect block has.
const POINTERS: usize = 1024;

/// An indirect block: the place of its own pointer in the record, from 0 to 15, and its 1,024
/// pointers.
#[derive(Drop)]
pub struct Table {
    place: u32,
    pointers: Vec<u32>,
}

impl Model for Table {
    ghost use Rattle.std.specs.Prelude.{◌≡◌, ◌<◌, length};
    ghost use Rattle.sfs_image.specs.Inode.{Table as Placed};

    ghost Value = { Placed };

    ghost view = { λ t. record { place = t.place; pointers = t.pointers.items } };

    ghost invariant = { λ t. (t.place < 16) × (length t.pointers.items ≡ 1024) };
}

impl Table {
    /// An indirect block of holes.
    pub fn holes(alloc: Global, place: u32) -> Result<Table, NoMemory>
        requires { place < 16 }
        ensures ok { IfOk result (λ table. table ≡ record { place = place; pointers = replicate 1024 0 }) }
    {
        let pointers = vec![in alloc; 0u32; POINTERS]?;
        Ok(Table { place, pointers })
    }

    /// The indirect block with these bytes.
    pub fn decode(alloc: Global, place: u32, block: &[u8; 4096]) -> Result<Table, NoMemory>
        requires { place < 16 }
        ensures ok { IfOk result (λ table. table ≡ record { place = place; pointers = pointers_of block.now }) }
    {
        let mut pointers = vec![in alloc; 0u32; POINTERS]?;
        LittleEndian::read_u32_into(block, &mut pointers);
        Ok(Table { place, pointers })
    }

    /// Writes the 4,096 bytes of the indirect block. It takes no memory.
    pub fn encode(&self, block: &mut [u8; 4096])
        ensures { block.new ≡ pointers_bytes self.now.pointers }
    {
        LittleEndian::write_u32_into(&self.pointers, block);
    }

    /// The place of the indirect block's own pointer.
    pub fn place(&self) -> u32
        ensures { result ≡ self.now.place }
    {
        self.place
    }

    /// The pointer at an entry, from 0 to 1,023.
    pub fn pointer(&self, entry: usize) -> u32
        requires { entry < 1024 }
        ensures { result ≡ slice_index self.now.pointers entry }
    {
        self.pointers[entry]
    }

    /// The 1,024 pointers.
    pub fn pointers(&self) -> &[u32]
        ensures pointers { result.now ≡ self.now.pointers }
        ensures count { length result.now ≡ 1024 }
    {
        &self.pointers
    }

    /// Puts a pointer at an entry, from 0 to 1,023. It takes no memory.
    pub fn put(&mut self, entry: usize, pointer: u32)
        requires { entry < 1024 }
        ensures { self.new ≡ record self.old { pointers = slice_set self.old.pointers entry pointer } }
    {
        self.pointers[entry] = pointer;
    }

    /// An equal indirect block.
    pub fn copy(&self) -> Result<Table, NoMemory>
        ensures ok { IfOk result (λ table. table ≡ self.now) }
    {
        Ok(Table {
            place: self.place,
            pointers: self.pointers.clone()?,
        })
    }
}

/// The indirect blocks of a node, ascending by place, for the indirect pointers that are not 0.
/// Contracts see the list, and the number `spare` of pushes that are reserved.
#[derive(Drop)]
pub struct Tables {
    tables: Vec<Table>,
}

impl Model for Tables {
    ghost use Rattle.std.specs.Prelude.{◌-◌, vec_len, vec_capacity};
    ghost use Rattle.sfs_base.specs.Lists.{Roomy};
    ghost use Rattle.sfs_image.specs.Inode.{Table as Placed};
    ghost use Rattle.sfs_image.specs.Inode.{IsAscending};

    ghost Value = { Roomy Placed };

    ghost view = { λ t. record { items = t.tables.items; spare = vec_capacity t.tables - vec_len t.tables } };

    ghost invariant = { λ t. IsAscending t.tables.items };
}

impl Tables {
    /// No indirect blocks. It takes no memory.
    pub fn new(alloc: Global) -> Tables
        ensures { result.items ≡ [] }
    {
        Tables {
            tables: Vec::new(alloc),
        }
    }

    /// Makes room for `count` more indirect blocks at least, and never lowers it.
    pub fn reserve(&mut self, count: u32) -> Result<(), NoMemory>
        ensures ok { OnOk result (count ≤ self.new.spare) }
        ensures never_lowers { self.old.spare ≤ self.new.spare }
        ensures items { self.new.items ≡ self.old.items }
        ensures err { OnErr result (self.new ≡ self.old) }
    {
        self.tables.reserve(count as usize)?;
        Ok(())
    }

    /// Puts an indirect block last, into room that was reserved. It takes no memory.
    pub fn push(&mut self, table: Table)
        requires spare { 0 < self.old.spare }
        requires above { All (λ t. t.place < table.place) self.old.items }
        ensures items { self.new.items ≡ self.old.items ++ table ∷ [] }
        ensures spare { self.new.spare + 1 ≡ self.old.spare }
    {
        self.tables.push_reserved(table);
    }

    /// The indirect block at this place of the list, from 0 on. `None` is past the last.
    pub fn get(&self, at: u64) -> Option<&Table>
        ensures { option_copied result ≡ slice_get self.now.items at }
    {
        self.tables.get(at as usize)
    }

    /// The indirect block whose own pointer has this place, where there is one.
    pub fn find(&self, place: u32) -> Option<&Table>
        ensures { option_copied result ≡ find (λ t. t.place == place) self.now.items }
    {
        self.tables.iter().find(|t| t.place() == place)
    }

    /// A list of equal indirect blocks.
    pub fn copy(&self) -> Result<Tables, NoMemory>
        ensures ok { IfOk result (λ tables. tables.items ≡ self.now.items) }
    {
        let mut tables = Vec::with_capacity(*self.tables.allocator(), self.tables.len())?;
        for table in &self.tables {
            tables.push(table.copy()?)?;
        }
        Ok(Tables { tables })
    }
}
