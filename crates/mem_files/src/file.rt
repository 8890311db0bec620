ghost use Rattle.std.specs.Prelude.{◌≡◌, ◌+◌, ◌-◌, ◌<◌, ◌≤◌, ◌++◌, ℕ, [], length, take, drop, min, Some, IsOk, IfOk, OnOk, OnErr, if◌then◌else◌};
ghost use Rattle.sfs_base.specs.Files.{resized, written};
ghost use Rattle.mem_files.specs.File.{mark_of, room, write_touches, trunc_touches, is_touched};

use crate::Touched;
use crate::marks::make_room;
use crate::page::Page;
use crate::pages::{copy_to, cut, grow, put, written};
use sfs_base::{NoMemory, Stamp};
use std::alloc::Global;
use std::marker::Model;

/// How long a file may be in bytes, so that the numbers of its blocks have 32 bits.
pub const LONGEST_FILE: u64 = 1 << 43;

/// The bytes of a file, in pages of which those that were never written take no memory, and for
/// each block of 4,096 bytes the stamp of the last change that touched it, its mark. Contracts see
/// the list of the bytes, the mark of each block, and the number `room` of the blocks whose mark
/// can be set without memory.
#[derive(Drop)]
pub struct FileBytes {
    size: u64,
    pages: Vec<Page>,
    marks: Vec<Option<Stamp>>,
}

impl Model for FileBytes {
    ghost use Rattle.mem_files.specs.File.{File};

    ghost Value = { File };

    ghost use Rattle.std.specs.Prelude.{length};
    ghost use Rattle.mem_files.specs.Kept.{bytes_in, KeepsFile};

    ghost view = { λ file. record {
      bytes = bytes_in file.pages.items file.size;
      marks = file.marks.items;
    } };

    ghost invariant = { λ file. KeepsFile file.pages.items file.size (length file.marks.items) };
}

impl FileBytes {
    /// A file without bytes and marks. It takes no memory.
    pub fn new(alloc: Global) -> Self
        ensures { result ≡ record { bytes = []; marks = [] } }
    {
        FileBytes {
            size: 0,
            pages: Vec::new(alloc),
            marks: Vec::new(alloc),
        }
    }

    /// How many bytes the file has.
    pub fn size(&self) -> u64
        ensures { result ≡ length self.now.bytes }
    {
        self.size
    }

    /// Writes bytes at a place, with zeros before them where the place lies past the end. It
    /// answers the blocks that the bytes overlap, and makes room for their marks.
    pub fn write(&mut self, at: u64, from: &[u8]) -> Result<Touched, NoMemory>
        requires { 0 < length from.now → at + length from.now ≤ LONGEST_FILE }
        ensures ok { IfOk result (λ touched. touched ≡ write_touches at (length from.now)) }
        ensures bytes { OnOk result (self.new.bytes ≡ written at from.now self.old.bytes) }
        ensures marks { (block : ℕ) → mark_of self.new block ≡ mark_of self.old block }
        ensures room { IfOk result (λ touched. touched.end ≤ room self.new) }
        ensures never_lowers { room self.old ≤ room self.new }
        ensures err { OnErr result (self.new ≡ self.old) }
    {
        if from.is_empty() {
            return Ok(Touched::none());
        }
        let end = at + from.len() as u64;
        let touched = Touched::of(at, end);
        let first = touched.first as usize;
        let end_block = touched.end as usize;
        let alloc = *self.pages.allocator();
        let fresh = written(alloc, &self.pages, at as usize, from, first, end_block)?;
        grow(&mut self.pages, end_block)?;
        make_room(&mut self.marks, end_block)?;
        put(&mut self.pages, first, fresh);
        self.size = self.size.max(end);
        Ok(touched)
    }

    /// Copies bytes from a place on, as many as the file has there and the buffer takes, and says
    /// how many. It takes no memory.
    pub fn read(&self, at: u64, into: &mut [u8]) -> usize
        ensures count { result ≡ min (length into.old) (length self.now.bytes - at) }
        ensures bytes { into.new ≡ take result (drop at self.now.bytes) ++ drop result into.old }
    {
        let left = self.size.saturating_sub(at) as usize;
        let count = into.len().min(left);
        if count > 0 {
            copy_to(&self.pages, at as usize, &mut into[..count]);
        }
        count
    }

    /// Gives the file another size: it cuts bytes off, or adds zeros. It answers the blocks from
    /// the new size on that had bytes, and makes room for their marks. To add zeros takes no memory.
    pub fn trunc(&mut self, size: u64) -> Result<Touched, NoMemory>
        requires { size ≤ LONGEST_FILE }
        ensures ok { IfOk result (λ touched. touched ≡ trunc_touches size (length self.old.bytes)) }
        ensures bytes { OnOk result (self.new.bytes ≡ resized size self.old.bytes) }
        ensures marks { (block : ℕ) → mark_of self.new block ≡ mark_of self.old block }
        ensures room { IfOk result (λ touched. touched.end ≤ room self.new) }
        ensures never_lowers { room self.old ≤ room self.new }
        ensures grows { length self.old.bytes ≤ size → IsOk result }
        ensures err { OnErr result (self.new ≡ self.old) }
    {
        if size >= self.size {
            self.size = size;
            return Ok(Touched::none());
        }
        let touched = Touched::of(size, self.size);
        make_room(&mut self.marks, touched.end as usize)?;
        cut(&mut self.pages, size as usize);
        self.size = size;
        Ok(touched)
    }

    /// Sets the mark of these blocks. It takes no memory.
    pub fn mark(&mut self, touched: Touched, stamp: Stamp)
        requires { touched.end ≤ room self.old }
        ensures bytes { self.new.bytes ≡ self.old.bytes }
        ensures marks { (block : ℕ) → mark_of self.new block
            ≡ (if is_touched touched block then Some stamp else mark_of self.old block) }
        ensures room { room self.new ≡ room self.old }
    {
        for block in touched.first..touched.end {
            self.marks[block as usize] = Some(stamp);
        }
    }

    /// The mark of a block. `None` is a block that no change has touched.
    pub fn last(&self, block: u32) -> Option<Stamp>
        ensures { result ≡ mark_of self.now block }
    {
        match self.marks.get(block as usize) {
            Some(mark) => *mark,
            None => None,
        }
    }

    /// How many first blocks may have a mark. No block behind them has one.
    pub fn room(&self) -> u32
        ensures { result ≡ room self.now }
    {
        self.marks.len() as u32
    }

    /// An equal file.
    pub fn copy(&self) -> Result<FileBytes, NoMemory>
        ensures ok { IfOk result (λ file. file ≡ self.now) }
    {
        let mut pages = Vec::with_capacity(*self.pages.allocator(), self.pages.len())?;
        for page in &self.pages {
            pages.push(page.copy()?)?;
        }
        Ok(FileBytes {
            size: self.size,
            pages,
            marks: self.marks.clone()?,
        })
    }
}
