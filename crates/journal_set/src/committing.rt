// A commit with records, turn by turn and as a whole.
ghost use Rattle.std.specs.Prelude.{◌≡◌, ◌<◌, Bool, Some, IfErr, IfOk, false};
ghost use Rattle.slot_laws.specs.Labels.{fsync_told};
ghost use Rattle.disk_box.specs.Pens.{IsOutside, PenGoes, own_at};
ghost use Rattle.journal_set.specs.Beginning.{CanBeWritten};
ghost use Rattle.journal_set.specs.Committing.{BeginComes, CanBeCommitted, Commits, HasBegun};
ghost use Rattle.journal_one.specs.Packed.{contents_of};
ghost use Rattle.journal_set.specs.Counting.{BeginsInTurn, BeginsScheduled, LandsScheduled, MakesScheduled, WorksInTurn};
ghost use Rattle.journal_set.specs.Flying.{EndsFlight, IsCausedBy, IsUnderWay, TurnComes, flight_of, flush_of};
ghost use Rattle.journal_set.specs.Grants.{grant_at};
ghost use Rattle.journal_set.specs.Telling.{AreTurnsTo, IsOneTurn, OfReserved, TellsCall, TellsGoing, TellsWork, begin_labels, begun_labels, commit_labels, end_labels, flight_labels, written_in, written_of};

use crate::beginning::Writing;
use crate::flying::{Flight, Progress, turn_at};
use crate::waiting::{Beginning, begin_at};
use crate::{Ack, CommitFault, JournalSet};
use disk_box::{Fsync, Pen, enter, leave};
use fmt_journal::Tx;
use sfs_base::{Gate, Place};
use sfs_dev::Disk;
use space_map::Grant;
use std::alloc::Global;
use std::sync::Wait;

impl<D: Disk + Drop> JournalSet<D> {
    /// Commits a transaction for an fsync of a node at a stamp, with what was granted for it: `Ok` once it is durable, with the moment of the
    /// sync that made it so, whoever made that. It refuses with `Stopped`, where an earlier commit has failed; with `DiskFailed`, where a device
    /// call of its own failed, on whose slot ever; and with `NoMemory` before its first device call, and then the grant has been given back. It
    /// waits for the box, and lets it go between any two device calls. The gate is told of `Body` once its slot is filled.
    /// Where no other core comes between its turns, and no slot had a commit at the first, it makes six device calls and one for each fresh block.
    pub fn commit<R: Wait, G: Gate>(
        &self,
        rt: &R,
        alloc: Global,
        pen: &mut Pen<D>,
        fsync: Fsync,
        tx: Tx,
        grant: Grant,
        gate: &G,
    ) -> Result<Ack, CommitFault>
        requires outside { IsOutside self.now pen.old }
        requires room { 0 < pen.old.room }
        requires grant { grant_at pen.old ≡ Some grant }
        requires goes_on { (own_at pen.old).over ≡ false }
        requires written { CanBeCommitted pen.old.table.given.layout tx }
        ensures outside { IsOutside self.now pen.new }
        ensures goes { PenGoes pen.old pen.new }
        ensures room { pen.new.room ≡ pen.old.room }
        ensures comes { Commits pen.old.view.core (fsync_told fsync.node fsync.stamp) (own_at pen.old) (own_at pen.new) result }
        ensures tells { TellsCall (OfReserved (own_at pen.old) (λ number. commit_labels pen.old.view.core (fsync_told fsync.node fsync.stamp)
            (written_of tx) number result)) pen.old pen.new }
        ensures cause { IfErr result (IsCausedBy pen.new) }
        ensures counts { IfOk result (λ ack. MakesScheduled (contents_of tx) pen.old pen.new) }
    {
        let writing = match Writing::new(alloc, tx, grant, fsync) {
            Ok(writing) => writing,
            Err(grant) => {
                self.give_back(rt, pen, fsync, grant);
                return Err(CommitFault::NoMemory);
            }
        };
        match self.begin(rt, pen, writing) {
            Ok(flight) => self.land(rt, pen, flight, gate),
            Err(fault) => Err(fault),
        }
    }

    // Waits for an idle slot of the core's own, and begins in it.
    fn begin<R: Wait>(
        &self,
        rt: &R,
        pen: &mut Pen<D>,
        mut writing: Writing,
    ) -> Result<Flight, CommitFault>
        requires outside { IsOutside self.now pen.old }
        requires room { 0 < pen.old.room }
        requires grant { grant_at pen.old ≡ Some writing.grant }
        requires goes_on { (own_at pen.old).over ≡ false }
        requires written { CanBeWritten pen.old.table.given.layout writing }
        ensures outside { IsOutside self.now pen.new }
        ensures goes { PenGoes pen.old pen.new }
        ensures room { pen.new.room ≡ pen.old.room }
        ensures comes { HasBegun writing pen.old pen.new result }
        ensures tells { TellsCall (OfReserved (own_at pen.old) (λ number. AreTurnsTo TellsWork (begun_labels pen.old.view.core
            (fsync_told writing.fsync.node writing.fsync.stamp) (written_in writing) number result))) pen.old pen.new }
        ensures cause { IfErr result (IsCausedBy pen.new) }
        ensures counts { IfOk result (BeginsScheduled writing.packed pen.old pen.new) }
    {
        for _ in rt.forever() {
            match self.begin_turn(rt, pen, writing) {
                Ok(Beginning::Waits { writing: still }) => writing = still,
                Ok(Beginning::Begun { flight }) => return Ok(flight),
                Err(fault) => return Err(fault),
            }
        }
        unreachable!()
    }

    /// One turn of a commit that has reserved, towards its beginning in an idle slot of its core's own. It makes one device call at most.
    pub fn begin_turn<R: Wait>(
        &self,
        rt: &R,
        pen: &mut Pen<D>,
        writing: Writing,
    ) -> Result<Beginning, CommitFault>
        requires outside { IsOutside self.now pen.old }
        requires room { 0 < pen.old.room }
        requires grant { grant_at pen.old ≡ Some writing.grant }
        requires goes_on { (own_at pen.old).over ≡ false }
        requires written { CanBeWritten pen.old.table.given.layout writing }
        ensures outside { IsOutside self.now pen.new }
        ensures goes { PenGoes pen.old pen.new }
        ensures room { pen.new.room ≡ pen.old.room }
        ensures comes { BeginComes writing pen.old pen.new result }
        ensures tells { TellsCall (IsOneTurn (OfReserved (own_at pen.old) (λ number. begin_labels pen.old.view.core
            (fsync_told writing.fsync.node writing.fsync.stamp) (written_in writing) number result))) pen.old pen.new }
        ensures cause { IfErr result (IsCausedBy pen.new) }
        ensures counts { BeginsInTurn writing.packed pen.old pen.new result }
    {
        self.line.join();
        let mut desk = enter(rt, &self.table, pen);
        let result = begin_at(&self.table, pen, &mut desk, writing);
        leave(&self.table, pen, desk);
        self.line.pass_on();
        result
    }

    // Turn by turn, until it has ended.
    fn land<R: Wait, G: Gate>(
        &self,
        rt: &R,
        pen: &mut Pen<D>,
        mut flight: Flight,
        gate: &G,
    ) -> Result<Ack, CommitFault>
        requires outside { IsOutside self.now pen.old }
        requires room { 0 < pen.old.room }
        requires under { IsUnderWay flight false (own_at pen.old) }
        ensures outside { IsOutside self.now pen.new }
        ensures goes { PenGoes pen.old pen.new }
        ensures room { pen.new.room ≡ pen.old.room }
        ensures comes { EndsFlight flight pen.old.view.core (own_at pen.old) (own_at pen.new) result }
        ensures tells { TellsCall (AreTurnsTo (TellsGoing pen.old.view.core flight.commit (flush_of flight))
            (end_labels pen.old.view.core flight.commit (flush_of flight) result)) pen.old pen.new }
        ensures cause { IfErr result (IsCausedBy pen.new) }
        ensures counts { IfOk result (λ ack. LandsScheduled flight.slot pen.old pen.new) }
    {
        for _ in rt.forever() {
            match self.commit_turn(rt, pen, &mut flight) {
                Ok(Progress::Durable { ack }) => return Ok(ack),
                Ok(Progress::Filled) => gate.at(pen.number(), Place::Body),
                Ok(Progress::Goes) => {}
                Err(fault) => return Err(fault),
            }
        }
        unreachable!()
    }

    /// One turn of a commit under way: the core learns whether it is durable, and whether another has failed, and makes one device call at most.
    pub fn commit_turn<R: Wait>(
        &self,
        rt: &R,
        pen: &mut Pen<D>,
        flight: &mut Flight,
    ) -> Result<Progress, CommitFault>
        requires outside { IsOutside self.now pen.old }
        requires room { 0 < pen.old.room }
        requires under { (opened : Bool) × IsUnderWay flight.old opened (own_at pen.old) }
        ensures outside { IsOutside self.now pen.new }
        ensures goes { PenGoes pen.old pen.new }
        ensures room { pen.new.room ≡ pen.old.room }
        ensures same { (opened : Bool) → flight_of flight.new opened ≡ flight_of flight.old opened }
        ensures comes { TurnComes flight.old pen.old.view.core (own_at pen.old) (own_at pen.new) result }
        ensures tells { TellsCall (IsOneTurn (flight_labels pen.old.view.core flight.old.commit (flush_of flight.old) result)) pen.old pen.new }
        ensures cause { IfErr result (IsCausedBy pen.new) }
        ensures counts { WorksInTurn flight.old flight.new pen.old pen.new result }
    {
        self.line.join();
        let mut desk = enter(rt, &self.table, pen);
        let result = turn_at(&self.table, pen, &mut desk, flight);
        leave(&self.table, pen, desk);
        self.line.pass_on();
        result
    }
}
