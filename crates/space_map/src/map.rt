ghost use Rattle.std.specs.Prelude.{◌≡◌, ℕ, take, None, IfOk, IfErr, OnErr, MatchOption};
ghost use Rattle.space_map.specs.Pool.{Grants, BecomeAll, free_numbers, first_status, status_of, Ends};
ghost use Rattle.space_map.specs.Space.{shortage, AllGranted};
ghost use Rattle.space_map.specs.declared.status.Status.TheVariants.{Free};

use crate::pool::Pool;
use crate::status::{Change, Status};
use crate::{Grant, Need, SpaceFault};
use sfs_base::{NoMemory, SpaceKind};
use std::alloc::Global;
use std::marker::Model;

/// Which blocks and inodes of a disk are free, which are taken, and which are granted to commits.
/// Contracts see the status of each number.
#[derive(Drop)]
pub struct SpaceMap {
    blocks: Pool,
    inodes: Pool,
}

impl Model for SpaceMap {
    ghost use Rattle.space_map.specs.Space.{Space};

    ghost Value = { Space };

    ghost view = { λ map. record { blocks = map.blocks; inodes = map.inodes } };
}

impl SpaceMap {
    /// The map of the blocks from `first` to below `end` and of the inodes from 0 to below
    /// `inodes`. Those that are listed in `held` and `used` are taken, the others are free, and
    /// none is granted.
    pub fn new(
        alloc: Global,
        first: u32,
        end: u32,
        inodes: u32,
        held: &[u32],
        used: &[u32],
    ) -> Result<SpaceMap, NoMemory>
        ensures blocks { IfOk result (λ map. (block : ℕ)
            → status_of map.blocks block ≡ first_status first end held.now block) }
        ensures inodes { IfOk result (λ map. (inode : ℕ)
            → status_of map.inodes inode ≡ first_status 0 inodes used.now inode) }
    {
        Ok(SpaceMap {
            blocks: Pool::new(alloc, first, end, held)?,
            inodes: Pool::new(alloc, 0, inodes, used)?,
        })
    }

    /// Grants inodes and blocks that are free, the least inodes first. It refuses where too few
    /// are free, of inodes before blocks.
    pub fn reserve(&mut self, need: Need) -> Result<Grant, SpaceFault>
        ensures inodes { IfOk result (λ grant.
            Grants self.old.inodes need.inodes grant.inodes self.new.inodes) }
        ensures blocks { IfOk result (λ grant.
            Grants self.old.blocks need.blocks grant.blocks self.new.blocks) }
        ensures least { IfOk result (λ grant.
            grant.inodes ≡ take need.inodes (free_numbers self.old.inodes)) }
        ensures enough { IfOk result (λ _. shortage self.old need ≡ None) }
        ensures cause { IfErr result (λ fault.
            MatchOption (shortage self.old need)
            (fault ≡ SpaceFault.NoMemory) (λ due. fault ≡ due)) }
        ensures err { OnErr result (self.new ≡ self.old) }
    {
        if let Some(fault) = self.shortage(need) {
            return Err(fault);
        }
        let mut inodes = self.inodes.room_for(need.inodes)?;
        let mut blocks = self.blocks.room_for(need.blocks)?;
        self.inodes.grant(need.inodes, &mut inodes);
        self.blocks.grant(need.blocks, &mut blocks);
        Ok(Grant::new(inodes, blocks))
    }

    /// Makes free again what was granted. It takes no memory.
    pub fn give_back(&mut self, grant: Grant)
        requires inodes { AllGranted self.old.inodes grant.inodes }
        requires blocks { AllGranted self.old.blocks grant.blocks }
        ensures inodes { BecomeAll Free grant.inodes self.old.inodes self.new.inodes }
        ensures blocks { BecomeAll Free grant.blocks self.old.blocks self.new.blocks }
    {
        let (inodes, blocks) = grant.end();
        self.inodes
            .change_all(inodes.as_slice(), Change::Become(Status::Free));
        self.blocks
            .change_all(blocks.as_slice(), Change::Become(Status::Free));
    }

    /// Ends a grant: what was granted stays taken. Then the listed blocks and inodes are free that
    /// were taken, and in no grant. It takes no memory.
    pub fn free_after(&mut self, grant: Grant, blocks: &[u32], inodes: &[u32])
        requires inodes { AllGranted self.old.inodes grant.inodes }
        requires blocks { AllGranted self.old.blocks grant.blocks }
        ensures inodes { Ends grant.inodes inodes.now self.old.inodes self.new.inodes }
        ensures blocks { Ends grant.blocks blocks.now self.old.blocks self.new.blocks }
    {
        let (granted_inodes, granted_blocks) = grant.end();
        self.inodes.end(granted_inodes.as_slice(), inodes);
        self.blocks.end(granted_blocks.as_slice(), blocks);
    }

    /// Of what there is too little: `NoSpace` exactly where `reserve` refuses for that. It takes no memory.
    pub fn shortage(&self, need: Need) -> Option<SpaceFault>
        ensures { result ≡ shortage self.now need }
    {
        if self.inodes.free() < need.inodes {
            return Some(SpaceFault::NoSpace {
                kind: SpaceKind::Inodes,
                need: need.inodes,
                free: self.inodes.free(),
            });
        }
        if self.blocks.free() < need.blocks {
            return Some(SpaceFault::NoSpace {
                kind: SpaceKind::Blocks,
                need: need.blocks,
                free: self.blocks.free(),
            });
        }
        None
    }
}
