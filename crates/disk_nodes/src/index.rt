// The index of a directory's blocks.
ghost use Rattle.std.specs.Prelude.{◌≡◌, ◌<◌, ◌/◌, ◌-◌, ◌^◌, [], take, IfOk, IfSome};
ghost use Rattle.disk_nodes.specs.Indexed.{IsIndexOf};
ghost use Rattle.disk_nodes.specs.Names.{bucket_with as bucket_of_name, ForgetsRows, TellOf, TellOnBut};
ghost use Rattle.disk_nodes.specs.Rooms.{GROUP_BLOCKS, AreFull, AreFullBut};

use crate::bucket::Bucket;
use crate::names::{bucket_with, empty_buckets, forget_block, note_block};
use crate::rooms::{GROUP, look_at, look_from, open_groups};
use fmt_slots::SlotBlock;
use sfs_base::NoMemory;
use std::alloc::Global;
use std::marker::Model;

// How many buckets there are for each block. A block has 15 slots, so in the mean a bucket has less than 4 names.
const SHARE: usize = 4;

// The buckets of names, and which groups of blocks are full. None of it takes memory once it is there.
#[derive(Drop)]
pub(crate) struct Index {
    pub(crate) buckets: Vec<Bucket>,
    pub(crate) full: Vec<bool>,
}

impl Model for Index {
    ghost use Rattle.disk_nodes.specs.Indexed.{Indexed};

    ghost Value = { Indexed };

    ghost view = { λ index. record { buckets = index.buckets.items; full = index.full.items } };
}

impl Index {
    // An index of no block.
    pub(crate) fn none(alloc: Global) -> Index
        ensures { IsIndexOf [] result }
    {
        Index {
            buckets: Vec::new(alloc),
            full: Vec::new(alloc),
        }
    }

    // An empty index with buckets for so many blocks.
    pub(crate) fn for_blocks(alloc: Global, count: usize) -> Result<Index, NoMemory>
        ensures { IfOk result (IsIndexOf []) }
    {
        Ok(Index {
            buckets: empty_buckets(alloc, count.saturating_mul(SHARE))?,
            full: open_groups(alloc, count.div_ceil(GROUP))?,
        })
    }

    // A larger one, where this one has too few buckets for so many blocks: it has enough for twice as many.
    pub(crate) fn grown(&self, alloc: Global, count: usize) -> Result<Option<Index>, NoMemory>
        ensures { IfOk result (λ larger. IfSome larger (IsIndexOf [])) }
    {
        if count.saturating_mul(SHARE) <= self.buckets.len() {
            return Ok(None);
        }
        Ok(Some(Index::for_blocks(alloc, count.saturating_mul(2))?))
    }

    // Notes the blocks from a place on, where those before it are noted.
    pub(crate) fn note_from(&mut self, blocks: &[SlotBlock], from: usize)
        requires { IsIndexOf (take from blocks.now) self.old }
        ensures { IsIndexOf blocks.now self.new }
    {
        for place in from..blocks.len() {
            note_block(&mut self.buckets, place, &blocks[place]);
        }
        look_from(&mut self.full, blocks, from);
    }

    // Notes that the block of a place gets other slots, and forgets those that it had.
    pub(crate) fn change(&mut self, place: usize, before: &SlotBlock, after: &SlotBlock)
        ensures told { TellOf self.new.buckets place after.now }
        ensures others { TellOnBut place self.old.buckets self.new.buckets }
        ensures forgets { place < 2 ^ 32 - 1 → ForgetsRows self.new.buckets place before.now after.now }
        ensures full { self.new.full ≡ self.old.full }
    {
        forget_block(&mut self.buckets, place, before);
        note_block(&mut self.buckets, place, after);
    }

    // Looks again whether the group of a block is full.
    pub(crate) fn look_at(&mut self, blocks: &[SlotBlock], place: usize)
        requires { AreFullBut (place / GROUP_BLOCKS) self.old.full blocks.now }
        ensures full { AreFull self.new.full blocks.now }
        ensures buckets { self.new.buckets ≡ self.old.buckets }
    {
        look_at(&mut self.full, blocks, place);
    }

    // Forgets the blocks from a place on.
    pub(crate) fn forget_from(&mut self, blocks: &[SlotBlock], from: usize)
        requires { IsIndexOf blocks.now self.old }
        ensures { IsIndexOf (take from blocks.now) self.new }
    {
        for place in from..blocks.len() {
            forget_block(&mut self.buckets, place, &blocks[place]);
        }
    }

    // The bucket in which a name lies.
    pub(crate) fn bucket_with(&self, name: &[u8]) -> Bucket
        ensures { result ≡ bucket_of_name self.now.buckets name.now }
    {
        bucket_with(&self.buckets, name)
    }
}
