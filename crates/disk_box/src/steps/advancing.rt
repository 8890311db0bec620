// A slot takes note of a sync, after which nothing is pending: no device call.
ghost use Rattle.std.specs.Prelude.{◌≡◌};
ghost use Rattle.journal_one.specs.Calls.{IsCalm};
ghost use Rattle.disk_box.specs.Kind.{kind_of};
ghost use Rattle.disk_box.specs.Calls.{TakesSync};
ghost use Rattle.disk_box.specs.declared.desk.Phase.TheVariants as phase;
ghost use Rattle.disk_box.specs.declared.kind.Kind.TheVariants as kind;

use crate::{Phase, Slot};
use journal_one::{Closing, Filled, Opened, Placed};
use sfs_dev::Disk;
use std::alloc::Global;

impl Phase {
    // The state of a slot that was filled.
    fn into_filled(self) -> Filled
        requires { kind_of self ≡ kind.Filled }
        ensures { self ≡ phase.Filled result }
    {
        match self {
            Phase::Filled { filled } => filled,
            _ => unreachable!(),
        }
    }

    // The state of one whose gate was opened.
    fn into_opened(self) -> Opened
        requires { kind_of self ≡ kind.Opened }
        ensures { self ≡ phase.Opened result }
    {
        match self {
            Phase::Opened { opened } => opened,
            _ => unreachable!(),
        }
    }

    // The state of one whose records were placed.
    fn into_placed(self) -> Placed
        requires { kind_of self ≡ kind.Placed }
        ensures { self ≡ phase.Placed result }
    {
        match self {
            Phase::Placed { placed } => placed,
            _ => unreachable!(),
        }
    }

    // The state of one whose gate was shut.
    fn into_closing(self) -> Closing
        requires { kind_of self ≡ kind.Closing }
        ensures { self ≡ phase.Closing result }
    {
        match self {
            Phase::Closing { closing } => closing,
            _ => unreachable!(),
        }
    }
}

impl Slot {
    // All that fills it is on the disk.
    pub(crate) fn seal<D: Disk>(&mut self, disk: &D)
        requires kind { kind_of self.old.phase ≡ kind.Filled }
        requires calm { IsCalm (D.view disk.now) }
        ensures { TakesSync self.old self.new }
    {
        let sealed = self.take().into_filled().sealed_by(disk);
        self.put(Phase::Sealed { sealed });
    }

    // Its commit is durable, and its fresh blocks are let go of.
    pub(crate) fn land<D: Disk>(&mut self, disk: &D, alloc: Global)
        requires kind { kind_of self.old.phase ≡ kind.Opened }
        requires calm { IsCalm (D.view disk.now) }
        ensures { TakesSync self.old self.new }
    {
        let (durable, _) = self.take().into_opened().settled_by(disk).shed(alloc);
        self.put(Phase::Durable { durable });
    }

    // Its records are in the table on the disk.
    pub(crate) fn copy<D: Disk>(&mut self, disk: &D)
        requires kind { kind_of self.old.phase ≡ kind.Placed }
        requires calm { IsCalm (D.view disk.now) }
        ensures { TakesSync self.old self.new }
    {
        let copied = self.take().into_placed().copied_by(disk);
        self.put(Phase::Copied { copied });
    }

    // It is idle.
    pub(crate) fn close<D: Disk>(&mut self, disk: &D)
        requires kind { kind_of self.old.phase ≡ kind.Closing }
        requires calm { IsCalm (D.view disk.now) }
        ensures { TakesSync self.old self.new }
    {
        let idle = self.take().into_closing().idle_by(disk);
        self.put(Phase::Idle { idle });
    }
}
