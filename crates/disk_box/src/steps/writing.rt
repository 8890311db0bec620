// The writes of one slot, each one device call. A slot is lost from where its state is in hand, and so it stays where the call failed.
ghost use Rattle.std.specs.Prelude.{◌≡◌, ◌≤◌};
ghost use Rattle.disk_box.specs.Kind.{kind_of};
ghost use Rattle.disk_box.specs.Calls.{FollowsWrite, HasMore, WritesNext, blocks_of, written_of};
ghost use Rattle.disk_box.specs.declared.desk.Phase.TheVariants as phase;
ghost use Rattle.disk_box.specs.declared.kind.Kind.TheVariants as kind;
ghost use Rattle.journal_one.specs.Outcome.{FillsOn, PlacesOn};
ghost use Rattle.journal_one.specs.Stage.{Stage};

use crate::{Phase, Slot};
use journal_one::{Copied, Durable, Fill, Filling, Put, Sealed};
use sfs_dev::Disk;
use std::mem;

impl Phase {
    // How many of the pieces that fill it were written, or how many of its records were placed.
    pub(crate) fn written(&self) -> usize
        ensures written { result ≡ written_of self.now }
        ensures more { HasMore self.now }
    {
        match self {
            Phase::Filling { filling } => filling.done(),
            Phase::Durable { durable } => durable.done(),
            _ => 0,
        }
    }

    // The state of a slot that is being filled.
    fn into_filling(self) -> Filling
        requires { kind_of self ≡ kind.Filling }
        ensures { self ≡ phase.Filling result }
    {
        match self {
            Phase::Filling { filling } => filling,
            _ => unreachable!(),
        }
    }

    // The state of one that is sealed.
    fn into_sealed(self) -> Sealed
        requires { kind_of self ≡ kind.Sealed }
        ensures { self ≡ phase.Sealed result }
    {
        match self {
            Phase::Sealed { sealed } => sealed,
            _ => unreachable!(),
        }
    }

    // The state of one with a durable commit.
    fn into_durable(self) -> Durable
        requires { kind_of self ≡ kind.Durable }
        ensures { self ≡ phase.Durable result }
    {
        match self {
            Phase::Durable { durable } => durable,
            _ => unreachable!(),
        }
    }

    // The state of one whose records are in the table on the disk.
    fn into_copied(self) -> Copied
        requires { kind_of self ≡ kind.Copied }
        ensures { self ≡ phase.Copied result }
    {
        match self {
            Phase::Copied { copied } => copied,
            _ => unreachable!(),
        }
    }

    // The phase of a slot once a piece that fills it was written.
    fn of_fill(fill: Fill) -> Phase
        ensures { (filling : Stage) → FillsOn filling fill → FollowsWrite (phase.Filling filling) result }
    {
        match fill {
            Fill::More { next } => Phase::Filling { filling: next },
            Fill::Done { filled } => Phase::Filled { filled },
        }
    }

    // And once a record was placed.
    fn of_put(put: Put) -> Phase
        ensures { (durable : Stage) → PlacesOn durable put → FollowsWrite (phase.Durable durable) result }
    {
        match put {
            Put::More { next } => Phase::Durable { durable: next },
            Put::Done { placed } => Phase::Placed { placed },
        }
    }
}

impl Slot {
    // Takes its phase out: it is lost.
    pub(crate) fn take(&mut self) -> Phase
        ensures phase { result ≡ self.old.phase }
        ensures lost { self.new ≡ record self.old { phase = phase.Lost } }
    {
        mem::replace(&mut self.phase, Phase::Lost)
    }

    // It has this phase now.
    pub(crate) fn put(&mut self, phase: Phase)
        ensures { self.new ≡ record self.old { phase = phase } }
    {
        self.phase = phase;
    }

    // Writes the next piece that fills it.
    pub(crate) fn fill<D: Disk>(&mut self, disk: &mut D) -> Result<(), u64>
        requires kind { kind_of self.old.phase ≡ kind.Filling }
        requires large { blocks_of self.old.phase ≤ (D.view disk.old).size }
        ensures { WritesNext self.old self.new (D.view disk.old) (D.view disk.new) result }
    {
        match self.take().into_filling().put_next(disk) {
            Ok(fill) => {
                self.put(Phase::of_fill(fill));
                Ok(())
            }
            Err(doubt) => Err(doubt.faults),
        }
    }

    // Opens the gate.
    pub(crate) fn open<D: Disk>(&mut self, disk: &mut D) -> Result<(), u64>
        requires kind { kind_of self.old.phase ≡ kind.Sealed }
        requires large { blocks_of self.old.phase ≤ (D.view disk.old).size }
        ensures { WritesNext self.old self.new (D.view disk.old) (D.view disk.new) result }
    {
        match self.take().into_sealed().open_gate(disk) {
            Ok(opened) => {
                self.put(Phase::Opened { opened });
                Ok(())
            }
            Err(doubt) => Err(doubt.faults),
        }
    }

    // Places the next record in the table.
    pub(crate) fn place<D: Disk>(&mut self, disk: &mut D) -> Result<(), u64>
        requires kind { kind_of self.old.phase ≡ kind.Durable }
        requires large { blocks_of self.old.phase ≤ (D.view disk.old).size }
        ensures { WritesNext self.old self.new (D.view disk.old) (D.view disk.new) result }
    {
        match self.take().into_durable().place_next(disk) {
            Ok(put) => {
                self.put(Phase::of_put(put));
                Ok(())
            }
            Err(doubt) => Err(doubt.faults),
        }
    }

    // Shuts the gate.
    pub(crate) fn shut<D: Disk>(&mut self, disk: &mut D) -> Result<(), u64>
        requires kind { kind_of self.old.phase ≡ kind.Copied }
        requires large { blocks_of self.old.phase ≤ (D.view disk.old).size }
        ensures { WritesNext self.old self.new (D.view disk.old) (D.view disk.new) result }
    {
        match self.take().into_copied().shut_gate(disk) {
            Ok(closing) => {
                self.put(Phase::Closing { closing });
                Ok(())
            }
            Err(doubt) => Err(doubt.faults),
        }
    }
}
