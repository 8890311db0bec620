// All cores of a disk.
ghost use Rattle.std.specs.Prelude.{◌≡◌, All, IfOk, length, map, true};
ghost use Rattle.journal_set.specs.Making.{MayClose};
ghost use Rattle.driven_journals.specs.Due.{is_at_rest};
ghost use Rattle.driven_journals.specs.Seats.{AreAtRest, EachGoes, IsDriven, SeatFits, SeatGoes, pen_of};

use crate::book::{Book, File};
use crate::due::Came;
use crate::order::{Order, Until};
use crate::resting::{empty_at, try_at};
use crate::seat::{Seat, commit_all, hand_to, is_at_rest, turn_at};
use disk_box::Pen;
use fmt_super::Layout;
use journal_set::{Ack, CommitFault, JournalSet};
use sfs_base::{Gate, NoMemory};
use sfs_dev::Disk;
use std::alloc::Global;
use std::sync::Wait;
use std::sync::atomic::AtomicU64;
use std::thread::{self, Threads};
use tree_laws::Turns;

// How many threads there are at most: one for each core that a layout may have.
const MOST_THREADS: usize = 16;

/// The journals of a disk, and all its cores.
#[derive(Drop)]
pub struct Driven<D: Disk> {
    pub(crate) set: JournalSet<D>,
    pub(crate) layout: Layout,
    pub(crate) seats: Vec<Seat<D>>,
}

/// What is left once all cores have ended: the disk, the record of turns, and the cores' books.
#[derive(Drop)]
pub struct Ended<D> {
    pub disk: D,
    pub turns: Turns,
    pub books: Vec<Book>,
}

impl<D: Disk + Drop> Driven<D> {
    /// A turn of a core, which is one of them.
    pub fn turn<R: Wait>(&mut self, rt: &R, alloc: Global, core: u32) -> Came
        requires driven { IsDriven self.old }
        ensures driven { IsDriven self.new }
    {
        let place = core as usize;
        if place >= self.seats.len() {
            return Came::Goes;
        }
        turn_at(rt, alloc, &self.set, &self.layout, &mut self.seats[place])
    }

    // Whether a core has no commit left to make, and nothing is due of it; or no core has, where the order goes over all.
    fn has_ended(&self, order: &Order) -> bool {
        match order {
            Order::Alone { core } => match self.seats.get(*core as usize) {
                Some(seat) => seat.book.left == 0 && is_at_rest(&seat.due),
                None => true,
            },
            _ => self
                .seats
                .iter()
                .all(|seat| seat.book.left == 0 && is_at_rest(&seat.due)),
        }
    }

    /// Cores take turns in an order, until they stop.
    pub fn drive<R: Wait>(&mut self, rt: &R, alloc: Global, order: Order, until: Until)
        requires driven { IsDriven self.old }
        ensures driven { IsDriven self.new }
    {
        let cores = self.layout.cores;
        let mut order = order;
        for _ in rt.forever() {
            if self.has_ended(&order) {
                return;
            }
            let came = self.turn(rt, alloc, order.take_next(cores));
            if until.is_met(came) {
                return;
            }
        }
        unreachable!()
    }

    /// A core is to commit the file of an inode from now on, as it stands behind what another core made of it, once or more often.
    pub fn hand_over(&mut self, core: u32, file: File, left: u32)
        requires driven { IsDriven self.old }
        ensures driven { IsDriven self.new }
    {
        let place = core as usize;
        if place < self.seats.len() {
            hand_to(&mut self.seats[place], file, left);
        }
    }

    /// A core that rests makes a commit without records. None, where it does not rest.
    pub fn commit_empty<R: Wait>(
        &mut self,
        rt: &R,
        alloc: Global,
        core: u32,
    ) -> Option<Result<Ack, CommitFault>>
        requires driven { IsDriven self.old }
        ensures driven { IsDriven self.new }
    {
        let place = core as usize;
        if place >= self.seats.len() {
            return None;
        }
        empty_at(rt, alloc, &self.set, &self.layout, &mut self.seats[place])
    }

    /// A core that rests reserves for its next commit, and gives back. None, where it does not rest; else the block that was granted.
    pub fn try_out<R: Wait>(
        &mut self,
        rt: &R,
        alloc: Global,
        core: u32,
    ) -> Option<Result<u32, CommitFault>>
        requires driven { IsDriven self.old }
        ensures driven { IsDriven self.new }
    {
        let place = core as usize;
        if place >= self.seats.len() {
            return None;
        }
        try_at(rt, alloc, &self.set, &self.layout, &mut self.seats[place])
    }

    /// A core's book.
    pub fn book(&self, core: u32) -> Option<&Book> {
        match self.seats.get(core as usize) {
            Some(seat) => Some(&seat.book),
            None => None,
        }
    }

    /// Ends the journals, where nothing is due of any core.
    pub fn end(self, alloc: Global) -> Option<Ended<D>>
        requires driven { IsDriven self }
    {
        let Driven {
            set,
            layout: _,
            seats,
        } = self;
        if are_at_rest(&seats) {
            match parts_of(alloc, seats) {
                Ok(parts) => Some(closed(set, parts)),
                Err(_) => None,
            }
        } else {
            None
        }
    }
}

// The journals are closed with all pens.
fn closed<D: Disk + Drop>(set: JournalSet<D>, parts: (Vec<Pen<D>>, Vec<Book>)) -> Ended<D>
    requires may { MayClose set parts.0.items }
{
    let (pens, books) = parts;
    let (disk, turns) = set.close(pens);
    Ended { disk, turns, books }
}

impl<D: Disk + Drop + Sync> Driven<D> {
    /// The cores make their commits side by side, each in a thread of its own. For each that is answered `answered` rises by one.
    pub fn side_by_side<R: Threads + Wait + Sync, G: Gate>(
        &mut self,
        rt: &R,
        alloc: Global,
        gate: &G,
        answered: &AtomicU64,
    )
        requires driven { IsDriven self.old }
        ensures driven { IsDriven self.new }
    {
        commit_each(
            rt,
            alloc,
            &self.set,
            &self.layout,
            self.seats.as_mut_slice(),
            gate,
            answered,
        );
    }
}

// Whether nothing is due of any core.
fn are_at_rest<D: Disk>(seats: &[Seat<D>]) -> bool
    ensures { result ≡ true → AreAtRest seats.now }
{
    for seat in seats {
        if !is_at_rest(&seat.due) {
            return false;
        }
    }
    true
}

// The pens and the books of cores.
fn parts_of<D: Disk + Drop>(
    alloc: Global,
    seats: Vec<Seat<D>>,
) -> Result<(Vec<Pen<D>>, Vec<Book>), NoMemory>
    ensures { IfOk result (λ made. made.0.items ≡ map pen_of seats.items) }
{
    let mut pens = Vec::with_capacity(alloc, seats.len())?;
    let mut books = Vec::with_capacity(alloc, seats.len())?;
    for seat in seats {
        let Seat { pen, due: _, book } = seat;
        pens.push_reserved(pen);
        books.push_reserved(book);
    }
    Ok((pens, books))
}

// Each core makes its commits in a thread of its own.
fn commit_each<R: Threads + Wait + Sync, D: Disk + Drop + Sync, G: Gate>(
    rt: &R,
    alloc: Global,
    set: &JournalSet<D>,
    layout: &Layout,
    seats: &mut [Seat<D>],
    gate: &G,
    answered: &AtomicU64,
)
    requires fits { All (SeatFits set.now layout.now) seats.old }
    ensures count { length seats.new ≡ length seats.old }
    ensures each { EachGoes set.now layout.now seats.old seats.new }
{
    thread::for_each_mut(
        rt,
        seats,
        MOST_THREADS,
        &|_number, seat: &mut Seat<D>|
            requires { SeatFits set.now layout.now seat.now }
            ensures { SeatGoes set.entry.now layout.entry.now seat.entry.now seat.exit.now }
        { commit_all(rt, alloc, set, layout, seat, gate, answered) },
    );
}
