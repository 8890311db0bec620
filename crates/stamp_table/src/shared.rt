// The table, and the steps on its words.
ghost use Rattle.std.specs.Prelude.{◌≡◌, ◌<◌, ◌+◌, ◌∷◌, Some, None, MatchBool};
ghost use Rattle.atomic_table.specs.Table.{rest};
ghost use Rattle.stamp_table.specs.Rule.{lock_word};
ghost use Rattle.stamp_table.specs.Placing.{by_given, at_slots};
ghost use Rattle.stamp_table.specs.Steps.{Gave};
ghost use Rattle.stamp_table.specs.Table.{IsSeatOf, IsSameSeat, TakesCell, GoesHome, MayDrawEntry, AddsEntry, MayTellNow, TellsNow, LooksNow, entry_numbered};

use crate::meaning::{Draw, Drawing, Give, Look, Take, Tell};
use crate::{Event, Law, Meaning, Telling, View};
use atomic_table::{Seat, Table};
use sfs_base::CoreId;
use sfs_tree::Tree;
use std::alloc::Global;
use std::hint;
use std::marker::Model;
use std::snapshot::Snapshot;
use std::sync::Wait;
use tree_laws::{Call, Entry, Reply};

// The first lock word. The stamp word before it has a line of memory to itself.
pub(crate) const LOCKS: usize = 16;

// The stamp word.
pub(crate) const STAMP: usize = 0;

// How often a core looks again at a lock word before it parks.
const SPINS: usize = 12000;

// What a table is about: the tree before the first call, what its caller gave beside it, and the number by which its cells are laid out.
pub(crate) type Key<G> = (Snapshot<Tree>, (Snapshot<G>, Snapshot<usize>));

/// What a core steps with.
pub(crate) type CoreSeat<C, X, G> = Seat<Option<C>, View<(Tree, (G, usize)), Event<X>>>;

/// The table that cores share: cells, each held by one core at a time or at home, and the word from which stamps are drawn.
#[derive(Drop)]
pub struct Shared<C, X, G, M: Meaning<C, X, G>> {
    pub(crate) table: Table<Option<C>, View<(Tree, (G, usize)), Event<X>>, Key<G>, Law<M>, Global>,
    pub(crate) cells: usize,
    pub(crate) cores: u8,
    // Room for the cores' lists at the end.
    pub(crate) parts: Vec<Vec<Entry>>,
    // The number by which the cells are laid out.
    pub(crate) measure: usize,
    // Room for the cells' values at the end.
    pub(crate) values: Vec<C>,
}

impl<C, X, G, M: Meaning<C, X, G>> Model for Shared<C, X, G, M> {
    ghost use Rattle.std.specs.Prelude.{◌≡◌, ◌+◌, ◌<◌, [], ◌≤◌, ◌^◌, length};
    ghost use Rattle.std.specs.Vec.{vec_capacity};
    ghost use Rattle.stamp_table.specs.Placing.{MOST_CELLS, IsLaidOut};
    ghost use Rattle.stamp_table.specs.Table.{TableState, table_code};

    ghost Value = { TableState G };

    ghost coded = { table_code G.code };

    ghost view = { λ t. record {
      table = record { id = t.table.shared.table_id; given = t.table.shared.key.1.0.value; measure = t.table.shared.key.1.1.value };
      first = t.table.shared.key.0.value;
      cores = t.cores;
    } };

    ghost invariant = { λ t. (t.table.shared.table_id.words ≡ 16 + t.cells) × (t.table.shared.table_id.slots ≡ t.cells)
        × (16 + t.cells < 2 ^ 63) × (t.parts.items ≡ []) × (t.cores ≤ vec_capacity t.parts) × (t.cores ≡ length t.table.shared.key.0.value.made)
        × (t.values.items ≡ []) × (t.cells ≤ vec_capacity t.values) × (t.cells ≤ MOST_CELLS)
        × (t.measure ≡ t.table.shared.key.1.1.value) × IsLaidOut t.cells (M.slot_at t.measure) (M.place_at t.measure) t.measure };
}

impl<C: Drop, X, G, M: Meaning<C, X, G>> Shared<C, X, G, M> {
    // The slot of the cell at a place.
    pub(crate) fn slot_of(&self, place: usize) -> usize
        requires { place < self.now.table.id.slots }
        ensures slot { result ≡ M.slot_at self.now.table.measure place }
        ensures within { result < self.now.table.id.slots }
    {
        M::slot_of(self.measure, place)
    }

    // The lock word of the cell at a slot.
    fn lock_of(&self, slot: usize) -> usize
        requires { slot < self.now.table.id.slots }
        ensures { result ≡ lock_word slot }
    {
        let _last = LOCKS + self.cells;
        LOCKS + slot
    }

    // Takes a cell where its lock word is 0.
    fn try_take(&self, seat: &mut CoreSeat<C, X, G>, slot: usize) -> bool
        requires seat { IsSeatOf self.now.table.id seat.old }
        requires cell { slot < self.now.table.id.slots }
        ensures same { IsSameSeat seat.old seat.new }
        ensures takes { MatchBool result (TakesCell (by_given M.lawful) (at_slots M.place_at M.stands) slot seat.old.me seat.new.me)
            (seat.new.me ≡ seat.old.me) }
    {
        let lock = self.lock_of(slot);
        self.table
            .shared
            .compare_exchange::<Take<M>>(seat, lock, 0, 1)
            == 0
    }

    // The same, and where it is not taken it has to be told when it is free.
    fn take_or_wait(&self, seat: &mut CoreSeat<C, X, G>, slot: usize) -> bool
        requires seat { IsSeatOf self.now.table.id seat.old }
        requires cell { slot < self.now.table.id.slots }
        ensures same { IsSameSeat seat.old seat.new }
        ensures takes { MatchBool result (TakesCell (by_given M.lawful) (at_slots M.place_at M.stands) slot seat.old.me seat.new.me)
            (seat.new.me ≡ seat.old.me) }
    {
        let lock = self.lock_of(slot);
        self.table.shared.swap::<Take<M>>(seat, lock, 2) == 0
    }

    // Looks at the lock word for a while, and takes the cell once it is 0.
    fn spin_for(&self, seat: &mut CoreSeat<C, X, G>, slot: usize) -> bool
        requires seat { IsSeatOf self.now.table.id seat.old }
        requires cell { slot < self.now.table.id.slots }
        ensures same { IsSameSeat seat.old seat.new }
        ensures takes { MatchBool result (TakesCell (by_given M.lawful) (at_slots M.place_at M.stands) slot seat.old.me seat.new.me)
            (seat.new.me ≡ seat.old.me) }
    {
        let lock = self.lock_of(slot);
        for _ in 0..SPINS {
            if self.table.shared.peek(lock) == 0 && self.try_take(seat, slot) {
                return true;
            }
            hint::spin_loop();
        }
        false
    }

    // Takes a cell, and waits for it where another core has it. A core that finds it free changes one word once.
    pub(crate) fn take<R: Wait>(&self, rt: &R, seat: &mut CoreSeat<C, X, G>, slot: usize)
        requires seat { IsSeatOf self.now.table.id seat.old }
        requires cell { slot < self.now.table.id.slots }
        ensures same { IsSameSeat seat.old seat.new }
        ensures takes { TakesCell (by_given M.lawful) (at_slots M.place_at M.stands) slot seat.old.me seat.new.me }
    {
        if self.try_take(seat, slot) || self.spin_for(seat, slot) {
            return;
        }
        let lock = self.lock_of(slot);
        for _ in rt.forever() {
            if self.take_or_wait(seat, slot) {
                return;
            }
            self.table.shared.park(rt, lock, 2);
        }
        unreachable!()
    }

    // Gives back the cell that was taken last, and wakes a core that waits for it. The value is home before the word is 0.
    pub(crate) fn give(&self, seat: &mut CoreSeat<C, X, G>, slot: usize)
        requires seat { IsSeatOf self.now.table.id seat.old }
        requires cell { slot < self.now.table.id.slots }
        requires home { GoesHome (by_given M.lawful) (at_slots M.place_at M.stands) slot seat.old.me }
        ensures same { IsSameSeat seat.old seat.new }
        ensures gave { Gave seat.old.me seat.new.me }
    {
        let lock = self.lock_of(slot);
        if self.table.shared.swap::<Give>(seat, lock, 0) == 2 {
            self.table.shared.wake_one(lock);
        }
    }

    // Brings out the value of the cell that was taken last.
    pub(crate) fn bring(&self, seat: &mut CoreSeat<C, X, G>, slot: usize) -> C
        requires seat { seat.old.table_id ≡ self.now.table.id }
        requires top { (value : C) × (seat.old.me.1 ≡ (slot, Some value) ∷ rest seat.old.me.1) }
        ensures same { IsSameSeat seat.old seat.new }
        ensures value { seat.old.me.1 ≡ (slot, Some result) ∷ rest seat.old.me.1 }
        ensures empty { seat.new.me ≡ (seat.old.me.0, (slot, None) ∷ rest seat.old.me.1) }
    {
        let Some(value) = self.table.shared.exchange(seat, slot, None) else {
            unreachable!()
        };
        value
    }

    // Puts a value into the slot of the cell that was taken last.
    pub(crate) fn put(&self, seat: &mut CoreSeat<C, X, G>, slot: usize, value: C)
        requires seat { seat.old.table_id ≡ self.now.table.id }
        requires top { seat.old.me.1 ≡ (slot, None) ∷ rest seat.old.me.1 }
        ensures same { IsSameSeat seat.old seat.new }
        ensures full { seat.new.me ≡ (seat.old.me.0, (slot, Some value) ∷ rest seat.old.me.1) }
    {
        let None = self.table.shared.exchange(seat, slot, Some(value)) else {
            unreachable!()
        };
    }

    // Draws a number for the entry of a core's call.
    pub(crate) fn draw<J: Drawing>(
        &self,
        seat: &mut CoreSeat<C, X, G>,
        core: CoreId,
        call: &Call,
        reply: &Reply,
    ) -> u64
        requires seat { IsSeatOf self.now.table.id seat.old }
        requires picked { J.entry ≡ entry_numbered core.0 call.now reply.now }
        requires entry { MayDrawEntry (by_given M.lawful) (at_slots M.place_at M.stands) seat.old.me.0 J.entry }
        ensures same { IsSameSeat seat.old seat.new }
        ensures adds { AddsEntry (by_given M.lawful) (at_slots M.place_at M.stands) (entry_numbered core.0 call.now reply.now) seat.old.me result seat.new.me }
    {
        let _core = core;
        let _call = call;
        let _reply = reply;
        self.table.shared.fetch_add::<Draw<M, J>>(seat, STAMP, 1)
    }

    // Tells a fact.
    pub(crate) fn tell<J: Telling<X>>(&self, seat: &mut CoreSeat<C, X, G>)
        requires seat { IsSeatOf self.now.table.id seat.old }
        requires may { (fact : X) × (J.fact ≡ Some fact) × MayTellNow (by_given M.lawful) (at_slots M.place_at M.stands) seat.old.me.0 fact }
        ensures same { IsSameSeat seat.old seat.new }
        ensures adds { (fact : X) → J.fact ≡ Some fact → TellsNow (by_given M.lawful) (at_slots M.place_at M.stands) fact seat.old.me seat.new.me }
    {
        self.table.shared.load::<Tell<M, J>>(seat, STAMP);
    }

    // Looks how many calls there are.
    pub(crate) fn look(&self, seat: &mut CoreSeat<C, X, G>) -> u64
        requires seat { IsSeatOf self.now.table.id seat.old }
        ensures same { IsSameSeat seat.old seat.new }
        ensures looks { LooksNow (by_given M.lawful) (at_slots M.place_at M.stands) seat.old.me result seat.new.me }
    {
        self.table.shared.load::<Look<M>>(seat, STAMP)
    }
}
