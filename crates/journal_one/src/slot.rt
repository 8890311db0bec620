// A commit through one journal slot, step by step, with what a crash then leaves of it. A write is torn
// by a crash until a sync behind it answers Ok; so each step that others count on has its sync first.
//
//   begin         nothing is written yet
//   put_next      fresh blocks, then numbers, records, count with commit stamp. The gate is closed, so
//                 none of that counts; and no write covers the gate's byte, or a torn one could open it
//   seal          a sync: all of that is on the disk, behind a closed gate
//   open_gate     one byte. Closed, nothing counts yet; open, the whole transaction does
//   settle        a sync: the gate is open, the transaction is durable
//   place_next    each record into the inode table. The slot's record counts, whatever stands there
//   close         a sync: the table has the records. One byte closes the gate: closed, the table's
//                 records count; open, the slot's, which are the same. A sync: the slot is idle
//
// Had the gate been opened before the body was on the disk, a crash could leave it open over a torn
// body; had it been closed before the placed records were, over a table with torn records.
ghost use Rattle.std.specs.Prelude.{◌≡◌, ◌+◌, ◌-◌, ◌*◌, ◌<◌, ◌≤◌, All, length, map, IfOk, IfErr, OnOk, OnErr};
ghost use Rattle.sfs_image.specs.ImageOf.{FreshBlock};
ghost use Rattle.sfs_image.specs.Journal.{Entry};
ghost use Rattle.sfs_image.specs.Super.{IsLayout};
ghost use Rattle.journal_one.specs.Calls.{IsWrite, IsSync, IsCalm};
ghost use Rattle.journal_one.specs.Job.{IsJob, LiesInData, gate_piece, fill_count, fill_piece, table_piece, without_fresh};
ghost use Rattle.journal_one.specs.Packed.{block_of};
ghost use Rattle.journal_one.specs.Work.{spot_place, job_of};
ghost use Rattle.journal_one.specs.Known.{IsFilling, IsFilled, IsSealed, IsOpened, IsDurable, AreAllPlaced, AreFilled};
ghost use Rattle.journal_one.specs.Stage.{next_stage, left_to_fill, left_to_place};
ghost use Rattle.journal_one.specs.Outcome.{FillsOn, PlacesOn};

use crate::doubt::sync;
use crate::work::{Spot, Work};
use crate::{Doubt, Packed, Placed};
use fmt_journal::TxBlock;
use fmt_super::Layout;
use sfs_base::RoomyList;
use sfs_dev::Disk;
use std::alloc::Global;
use std::marker::Model;

const OPEN: u8 = 1;

const SHUT: u8 = 0;

/// A slot whose gate is closed: nothing in it counts.
#[derive(Drop)]
pub struct Idle {
    spot: Spot,
}

impl Model for Idle {
    ghost use Rattle.journal_one.specs.Job.{Place};

    ghost Value = { Place };

    ghost use Rattle.journal_one.specs.Work.{spot_place};

    ghost view = { λ idle. spot_place idle.spot };
}

/// A slot that is being filled behind its closed gate.
#[derive(Drop)]
pub struct Filling {
    work: Work,
    // how many pieces were written
    done: usize,
}

impl Model for Filling {
    ghost use Rattle.std.specs.Prelude.{◌<◌};
    ghost use Rattle.journal_one.specs.Stage.{Stage};

    ghost Value = { Stage };

    ghost use Rattle.journal_one.specs.Job.{fill_count};
    ghost use Rattle.journal_one.specs.Work.{job_of};

    ghost view = { λ filling. record { job = job_of filling.work; done = filling.done } };

    ghost invariant = { λ filling. filling.done < fill_count (job_of filling.work) };
}

/// What a write that fills the slot leads to.
pub enum Fill {
    /// More writes are to come.
    More { next: Filling },
    /// It was the last one.
    Done { filled: Filled },
}

/// A slot that was filled, by writes that may be pending.
#[derive(Drop)]
pub struct Filled {
    work: Work,
}

impl Model for Filled {
    ghost use Rattle.journal_one.specs.Job.{Job};

    ghost Value = { Job };

    ghost use Rattle.journal_one.specs.Work.{job_of};

    ghost view = { λ filled. job_of filled.work };
}

/// A slot whose body and fresh blocks are on the disk, behind its closed gate.
#[derive(Drop)]
pub struct Sealed {
    work: Work,
}

impl Model for Sealed {
    ghost use Rattle.journal_one.specs.Job.{Job};

    ghost Value = { Job };

    ghost use Rattle.journal_one.specs.Work.{job_of};

    ghost view = { λ sealed. job_of sealed.work };
}

/// A slot whose gate was opened, by a write that may be pending.
#[derive(Drop)]
pub struct Opened {
    work: Work,
}

impl Model for Opened {
    ghost use Rattle.journal_one.specs.Job.{Job};

    ghost Value = { Job };

    ghost use Rattle.journal_one.specs.Work.{job_of};

    ghost view = { λ opened. job_of opened.work };
}

/// A slot whose gate is open on the disk: its transaction counts from now on.
#[derive(Drop)]
pub struct Durable {
    work: Work,
    // how many records were placed in the table
    done: usize,
}

impl Model for Durable {
    ghost use Rattle.std.specs.Prelude.{◌<◌, length};
    ghost use Rattle.journal_one.specs.Stage.{Stage};

    ghost Value = { Stage };

    ghost use Rattle.journal_one.specs.Work.{job_of};

    ghost view = { λ durable. record { job = job_of durable.work; done = durable.done } };

    ghost invariant = { λ durable. durable.done < length (job_of durable.work).entries };
}

/// What a write that places a record leads to.
pub enum Put {
    /// More records are to be placed.
    More { next: Durable },
    /// It was the last one.
    Done { placed: Placed },
}

impl Idle {
    // The slot that begins here.
    pub(crate) fn of(spot: Spot) -> Idle
        ensures { result ≡ spot_place spot }
    {
        Idle { spot }
    }

    /// A slot of a core, by the disk's layout. What this state and those after it say of images holds
    /// where the slot is closed in every image of this disk. It makes no device call.
    pub fn at<D: Disk>(_disk: &D, layout: &Layout, core: u32, slot: u32) -> Idle
        requires fits { IsLayout layout.now.blocks layout.now }
        requires core { core < layout.now.cores }
        requires slot { slot < layout.now.slots }
        requires large { layout.now.blocks ≤ (D.view _disk.now).size }
        ensures layout { result.layout ≡ layout.now }
        ensures slot { result.slot ≡ core * layout.now.slots + slot }
    {
        Idle {
            spot: Spot::of(layout, core, slot),
        }
    }

    /// Begins a commit of this transaction under this commit stamp. It makes no device call.
    pub fn begin(self, packed: Packed, stamp: u64) -> Filling
        requires below { All (λ (entry : Entry). entry.inode < self.layout.inodes) packed.entries }
        requires in_data { All (LiesInData self.layout) packed.fresh }
        ensures job { result.job ≡ record { place = self; stamp = stamp; entries = packed.entries; fresh = packed.fresh } }
        ensures done { result.done ≡ 0 }
        ensures sound { IsJob result.job }
    {
        let Idle { spot } = self;
        Filling {
            work: Work::new(spot, packed, stamp),
            done: 0,
        }
    }

    /// Lets go of the slot.
    pub fn leave(self) {
        let Idle { spot: _ } = self;
    }
}

impl Filling {
    /// How many of the pieces that fill the slot were written.
    pub fn done(&self) -> usize
        ensures done { result ≡ self.now.done }
        ensures within { result < fill_count self.now.job }
    {
        self.done
    }

    /// Writes the next piece: one device call.
    pub fn put_next<D: Disk>(self, disk: &mut D) -> Result<Fill, Doubt>
        requires large { self.job.place.layout.blocks ≤ (D.view disk.old).size }
        ensures ok { IfOk result (FillsOn self) }
        ensures write { IsWrite (fill_piece self.job self.done) (D.view disk.old) (D.view disk.new) result }
        ensures whole { self.done < length self.job.fresh → length (fill_piece self.job self.done).bytes ≡ 4096 }
        ensures faults { IfErr result (λ doubt. doubt.faults ≡ (D.view disk.new).faults) }
        ensures written { OnOk result (IsFilling self.job self.done (D.view disk.old) → IsFilling self.job (self.done + 1) (D.view disk.new)) }
        ensures err { OnErr result (IsFilling self.job self.done (D.view disk.old) → IsFilling self.job self.done (D.view disk.new)) }
    {
        let Filling { work, done } = self;
        work.put_piece(disk, done)?;
        Ok(after_piece(work, done + 1))
    }

    /// Lets go of the slot after a doubt; only recovery goes on from it.
    pub fn abandon(self) {
        let Filling { work: _, done: _ } = self;
    }
}

// The state once so many pieces were written.
fn after_piece(work: Work, done: usize) -> Fill
    requires some { 0 < done }
    requires within { done ≤ fill_count (job_of work) }
    ensures { FillsOn (record { job = job_of work; done = done - 1 }) result }
{
    if done < work.fill_count() {
        Fill::More {
            next: Filling { work, done },
        }
    } else {
        Fill::Done {
            filled: Filled { work },
        }
    }
}

impl Filled {
    /// Waits until what was written is on the disk: one sync.
    pub fn seal<D: Disk>(self, disk: &mut D) -> Result<Sealed, Doubt>
        ensures ok { IfOk result (λ sealed. sealed ≡ self) }
        ensures sync { IsSync (D.view disk.old) (D.view disk.new) result }
        ensures faults { IfErr result (λ doubt. doubt.faults ≡ (D.view disk.new).faults) }
        ensures sealed { OnOk result (IsFilled self (D.view disk.old) → IsSealed self (D.view disk.new)) }
        ensures err { OnErr result (IsFilled self (D.view disk.old) → IsFilled self (D.view disk.new)) }
    {
        let Filled { work } = self;
        sync(disk)?;
        Ok(Sealed { work })
    }

    /// Takes note of a sync that another made, after which nothing is pending. It makes no device
    /// call.
    pub fn sealed_by<D: Disk>(self, _disk: &D) -> Sealed
        requires calm { IsCalm (D.view _disk.now) }
        ensures ok { result ≡ self }
        ensures sealed { IsFilled self (D.view _disk.now) → IsSealed self (D.view _disk.now) }
    {
        let Filled { work } = self;
        Sealed { work }
    }

    /// Lets go of the slot after a doubt; only recovery goes on from it.
    pub fn abandon(self) {
        let Filled { work: _ } = self;
    }
}

impl Sealed {
    /// Opens the gate: one write of one byte.
    pub fn open_gate<D: Disk>(self, disk: &mut D) -> Result<Opened, Doubt>
        requires large { self.place.layout.blocks ≤ (D.view disk.old).size }
        ensures ok { IfOk result (λ opened. opened ≡ self) }
        ensures write { IsWrite (gate_piece self.place OPEN) (D.view disk.old) (D.view disk.new) result }
        ensures faults { IfErr result (λ doubt. doubt.faults ≡ (D.view disk.new).faults) }
        ensures opened { OnOk result (IsSealed self (D.view disk.old) → IsOpened self (D.view disk.new)) }
        ensures err { OnErr result (IsSealed self (D.view disk.old) → AreFilled self (D.view disk.new)) }
    {
        let Sealed { work } = self;
        work.put_gate(disk, OPEN)?;
        Ok(Opened { work })
    }

    /// Lets go of the slot after a doubt; only recovery goes on from it.
    pub fn abandon(self) {
        let Sealed { work: _ } = self;
    }
}

impl Opened {
    /// Waits until the gate is open on the disk: one sync. From Ok on the transaction is durable.
    pub fn settle<D: Disk>(self, disk: &mut D) -> Result<Durable, Doubt>
        ensures ok { IfOk result (λ durable. durable ≡ record { job = self; done = 0 }) }
        ensures sync { IsSync (D.view disk.old) (D.view disk.new) result }
        ensures faults { IfErr result (λ doubt. doubt.faults ≡ (D.view disk.new).faults) }
        ensures durable { OnOk result (IsOpened self (D.view disk.old) → IsDurable self 0 (D.view disk.new)) }
        ensures err { OnErr result (IsOpened self (D.view disk.old) → IsOpened self (D.view disk.new)) }
    {
        let Opened { work } = self;
        sync(disk)?;
        Ok(Durable { work, done: 0 })
    }

    /// Takes note of a sync that another made, after which nothing is pending. It makes no device
    /// call.
    pub fn settled_by<D: Disk>(self, _disk: &D) -> Durable
        requires calm { IsCalm (D.view _disk.now) }
        ensures ok { result ≡ record { job = self; done = 0 } }
        ensures durable { IsOpened self (D.view _disk.now) → IsDurable self 0 (D.view _disk.now) }
    {
        let Opened { work } = self;
        Durable { work, done: 0 }
    }

    /// Lets go of the slot after a doubt; only recovery goes on from it.
    pub fn abandon(self) {
        let Opened { work: _ } = self;
    }
}

impl Durable {
    /// How many of the records were placed.
    pub fn done(&self) -> usize
        ensures done { result ≡ self.now.done }
        ensures within { result < length self.now.job.entries }
    {
        self.done
    }

    /// Lets go of the fresh blocks, of which nothing is asked any more, and hands them out. It makes
    /// no device call and takes no memory.
    pub fn shed(self, alloc: Global) -> (Durable, RoomyList<TxBlock>)
        ensures durable { result.0 ≡ record { job = without_fresh self.job; done = self.done } }
        ensures fresh { map block_of result.1.items ≡ self.job.fresh }
    {
        let Durable { work, done } = self;
        let (work, fresh) = work.shed(alloc);
        (Durable { work, done }, fresh)
    }

    /// Places the next record in the inode table: one write.
    pub fn place_next<D: Disk>(self, disk: &mut D) -> Result<Put, Doubt>
        requires large { self.job.place.layout.blocks ≤ (D.view disk.old).size }
        ensures ok { IfOk result (PlacesOn self) }
        ensures write { IsWrite (table_piece self.job self.done) (D.view disk.old) (D.view disk.new) result }
        ensures faults { IfErr result (λ doubt. doubt.faults ≡ (D.view disk.new).faults) }
        ensures placed { OnOk result (IsDurable self.job self.done (D.view disk.old) → IsDurable self.job (self.done + 1) (D.view disk.new)) }
        ensures err { OnErr result (IsDurable self.job self.done (D.view disk.old) → IsDurable self.job self.done (D.view disk.new)) }
    {
        let Durable { work, done } = self;
        work.put_record(disk, done)?;
        Ok(after_record(work, done + 1))
    }

    /// Lets go of the slot after a doubt; only recovery goes on from it.
    pub fn abandon(self) {
        let Durable { work: _, done: _ } = self;
    }
}

// The state once so many records were placed.
fn after_record(work: Work, done: usize) -> Put
    requires some { 0 < done }
    requires within { done ≤ length (job_of work).entries }
    ensures { PlacesOn (record { job = job_of work; done = done - 1 }) result }
{
    if done < work.table_count() {
        Put::More {
            next: Durable { work, done },
        }
    } else {
        Put::Done {
            placed: Placed::of(work),
        }
    }
}
