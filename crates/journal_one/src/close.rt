// How a slot is closed: a sync, the gate's byte, a sync.
ghost use Rattle.std.specs.Prelude.{◌≡◌, ◌≤◌, IfOk, IfErr, OnOk, OnErr};
ghost use Rattle.sfs_dev.specs.Run.{Advances};
ghost use Rattle.sfs_dev.specs.Steps.{TearsOnly};
ghost use Rattle.journal_one.specs.Calls.{IsWrite, IsSync, IsCalm, HasDoubt};
ghost use Rattle.journal_one.specs.Job.{gate_piece};
ghost use Rattle.journal_one.specs.Known.{AreAllPlaced, IsCopied, IsClosing, IsEnded, IsBetween};
ghost use Rattle.journal_one.specs.Work.{job_of};

use crate::doubt::sync;
use crate::work::Work;
use crate::{Doubt, Idle, Packed};
use sfs_dev::Disk;
use std::marker::Model;

const SHUT: u8 = 0;

/// A slot whose records were placed in the table, by writes that may be pending.
#[derive(Drop)]
pub struct Placed {
    work: Work,
}

impl Model for Placed {
    ghost use Rattle.journal_one.specs.Job.{Job};

    ghost Value = { Job };

    ghost use Rattle.journal_one.specs.Work.{job_of};

    ghost view = { λ placed. job_of placed.work };
}

/// A slot whose records are on the disk in the table too.
#[derive(Drop)]
pub struct Copied {
    work: Work,
}

impl Model for Copied {
    ghost use Rattle.journal_one.specs.Job.{Job};

    ghost Value = { Job };

    ghost use Rattle.journal_one.specs.Work.{job_of};

    ghost view = { λ copied. job_of copied.work };
}

/// A slot whose gate was closed, by a write that may be pending.
#[derive(Drop)]
pub struct Closing {
    work: Work,
}

impl Model for Closing {
    ghost use Rattle.journal_one.specs.Job.{Job};

    ghost Value = { Job };

    ghost use Rattle.journal_one.specs.Work.{job_of};

    ghost view = { λ closing. job_of closing.work };
}

impl Placed {
    // The slot of this commit.
    pub(crate) fn of(work: Work) -> Placed
        ensures { result ≡ job_of work }
    {
        Placed { work }
    }

    /// Waits until the records are on the disk: one sync. It is the first part of `close`.
    pub fn copy<D: Disk>(self, disk: &mut D) -> Result<Copied, Doubt>
        ensures ok { IfOk result (λ copied. copied ≡ self) }
        ensures sync { IsSync (D.view disk.old) (D.view disk.new) result }
        ensures faults { IfErr result (λ doubt. doubt.faults ≡ (D.view disk.new).faults) }
        ensures copied { OnOk result (AreAllPlaced self (D.view disk.old) → IsCopied self (D.view disk.new)) }
        ensures err { OnErr result (AreAllPlaced self (D.view disk.old) → AreAllPlaced self (D.view disk.new)) }
    {
        let Placed { work } = self;
        sync(disk)?;
        Ok(Copied { work })
    }

    /// Waits until the records are on the disk, closes the gate, and waits until that is on the disk:
    /// a sync, a write of one byte, a sync.
    pub fn close<D: Disk>(self, disk: &mut D) -> Result<Idle, Doubt>
        requires large { self.place.layout.blocks ≤ (D.view disk.old).size }
        ensures ok { IfOk result (λ idle. idle ≡ self.place) }
        ensures advances { Advances (D.view disk.old) (D.view disk.new) }
        ensures torn { TearsOnly (gate_piece self.place SHUT).at 1 (D.view disk.old) (D.view disk.new) }
        ensures calm { OnOk result (IsCalm (D.view disk.new)) }
        ensures faults { HasDoubt (D.view disk.old) (D.view disk.new) result }
        ensures closed { OnOk result (AreAllPlaced self (D.view disk.old) → IsEnded self (D.view disk.new)) }
        ensures err { OnErr result (AreAllPlaced self (D.view disk.old) → IsBetween self (D.view disk.new)) }
    {
        let Placed { work } = self;
        // The records have to be on the disk first: behind a closed gate those of the table count.
        sync(disk)?;
        let Closing { work } = Copied { work }.shut_gate(disk)?;
        sync(disk)?;
        Ok(Idle::of(work.into_spot()))
    }

    /// Takes note of a sync that another made, after which nothing is pending. It makes no device
    /// call.
    pub fn copied_by<D: Disk>(self, _disk: &D) -> Copied
        requires calm { IsCalm (D.view _disk.now) }
        ensures ok { result ≡ self }
        ensures copied { AreAllPlaced self (D.view _disk.now) → IsCopied self (D.view _disk.now) }
    {
        let Placed { work } = self;
        Copied { work }
    }

    /// Lets go of the slot after a doubt; only recovery goes on from it.
    pub fn abandon(self) {
        let Placed { work: _ } = self;
    }
}

impl Copied {
    /// Closes the gate: one write of one byte.
    pub fn shut_gate<D: Disk>(self, disk: &mut D) -> Result<Closing, Doubt>
        requires large { self.place.layout.blocks ≤ (D.view disk.old).size }
        ensures ok { IfOk result (λ closing. closing ≡ self) }
        ensures write { IsWrite (gate_piece self.place SHUT) (D.view disk.old) (D.view disk.new) result }
        ensures faults { IfErr result (λ doubt. doubt.faults ≡ (D.view disk.new).faults) }
        ensures closing { OnOk result (IsCopied self (D.view disk.old) → IsClosing self (D.view disk.new)) }
        ensures err { OnErr result (IsCopied self (D.view disk.old) → IsBetween self (D.view disk.new)) }
    {
        let Copied { work } = self;
        work.put_gate(disk, SHUT)?;
        Ok(Closing { work })
    }

    /// Lets go of the slot after a doubt; only recovery goes on from it.
    pub fn abandon(self) {
        let Copied { work: _ } = self;
    }
}

impl Closing {
    /// Waits until the gate is closed on the disk: one sync. It is the last part of `close`.
    pub fn finish<D: Disk>(self, disk: &mut D) -> Result<Idle, Doubt>
        ensures ok { IfOk result (λ idle. idle ≡ self.place) }
        ensures sync { IsSync (D.view disk.old) (D.view disk.new) result }
        ensures faults { IfErr result (λ doubt. doubt.faults ≡ (D.view disk.new).faults) }
        ensures closed { OnOk result (IsClosing self (D.view disk.old) → IsEnded self (D.view disk.new)) }
        ensures err { OnErr result (IsClosing self (D.view disk.old) → IsClosing self (D.view disk.new)) }
    {
        let Closing { work } = self;
        sync(disk)?;
        Ok(Idle::of(work.into_spot()))
    }

    /// Takes note of a sync that another made, after which nothing is pending. It makes no device
    /// call.
    pub fn idle_by<D: Disk>(self, _disk: &D) -> Idle
        requires calm { IsCalm (D.view _disk.now) }
        ensures ok { result ≡ self.place }
        ensures idle { IsClosing self (D.view _disk.now) → IsEnded self (D.view _disk.now) }
    {
        let Closing { work } = self;
        Idle::of(work.into_spot())
    }

    /// As `idle_by`, and hands back the transaction.
    pub fn ended_by<D: Disk>(self, _disk: &D) -> (Idle, Packed)
        requires calm { IsCalm (D.view _disk.now) }
        ensures idle { result.0 ≡ self.place }
        ensures packed { result.1 ≡ record { entries = self.entries; fresh = self.fresh } }
        ensures ended { IsClosing self (D.view _disk.now) → IsEnded self (D.view _disk.now) }
    {
        let Closing { work } = self;
        let (spot, packed) = work.into_parts();
        (Idle::of(spot), packed)
    }

    /// Lets go of the slot after a doubt; only recovery goes on from it.
    pub fn abandon(self) {
        let Closing { work: _ } = self;
    }
}
