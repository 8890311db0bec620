// A core, and the cells that it holds.
ghost use Rattle.std.specs.Prelude.{◌≡◌, ◌<◌, ◌≤◌, ◌^◌, ◌++◌, ◌∷◌, ◌↔◌, [], length, reverse, OnOk, Some, None, IsSome, IsTrue, if◌then◌else◌};
ghost use Rattle.tree_laws.specs.History.{IsFsyncReply, is_ok_reply};
ghost use Rattle.stamp_table.specs.Answered.{waits_for_answer};
ghost use Rattle.stamp_table.specs.declared.held.HeldCell.{HeldCell};
ghost use Rattle.stamp_table.specs.Hand.{places_of};
ghost use Rattle.stamp_table.specs.Events.{calls_in};
ghost use Rattle.stamp_table.specs.Ascending.{LiesAbove, AreBelow, RiseAbove};
ghost use Rattle.stamp_table.specs.Table.{HoldsMore, HoldsAll, Looked, MayCall, MayTell, Stamps, TellsFact, GivesAnswer, LetsGo, Stands, OfLast, EachFrom, begins_from, left_below};

use crate::shared::CoreSeat;
use crate::{HeldCell, Meaning, Shared, Telling};
use sfs_base::{CoreId, NoMemory, Stamp};
use std::marker::{Brand, Model, PhantomData};
use std::sync::Wait;
use tree_laws::{Call, Entry, Reply};

// How many stamps a core draws at most, so that the stamp word never comes to its end.
const MOST_ENTRIES: u64 = 1 << 50;

/// A core's place at a table. It keeps the list of the core's own entries, and the values of the cells that it holds.
#[derive(Drop)]
pub struct Core<C, X, G, M: Meaning<C, X, G>> {
    pub(crate) seat: CoreSeat<C, X, G>,
    pub(crate) lead: Option<CoreSeat<C, X, G>>,
    pub(crate) number: CoreId,
    pub(crate) cores: u8,
    pub(crate) entries: Vec<Entry>,
    // The stamp of its last entry, where that is an fsync that waits for its answer.
    pub(crate) waiting: Option<Stamp>,
    pub(crate) held: Vec<HeldCell<C>>,
    // The cores lie side by side in a list, and each call writes to its own. So they lie a line of memory further apart.
    pub(crate) apart: [u64; 8],
    pub(crate) meaning: PhantomData<M>,
}

// The stamp, where the entry with it waits for its answer: it is an fsync with want of memory.
fn waiting_with(call: &Call, reply: &Reply, stamp: Stamp) -> Option<Stamp>
    ensures { result ≡ (if waits_for_answer call.now reply.now then Some stamp else None) }
{
    match (call, reply) {
        (Call::Fsync { .. }, Reply::NoMemory) => Some(stamp),
        _ => None,
    }
}

impl<C, X, G, M: Meaning<C, X, G>> Model for Core<C, X, G, M> {
    ghost use Rattle.std.specs.Prelude.{◌-◌, length, is_some, option_map};
    ghost use Rattle.std.specs.Vec.{vec_capacity, vec_len};
    ghost use Rattle.stamp_table.specs.Hand.{Hand, spare_of, IsCore, LeadsWell, WaitsWell};
    ghost use Rattle.stamp_table.specs.Codes.{hand_code};
    ghost use Rattle.stamp_table.specs.Events.{tree_view};
    ghost use Rattle.tree_laws.specs.contracts.history.Entry as entry;

    ghost Value = { Hand C X G };

    ghost coded = { hand_code entry.the_row.coded C.code X.code G.code };

    ghost view = { λ c. record {
      table = record { id = c.seat.table_id; given = c.seat.me.0.first.1.0; measure = c.seat.me.0.first.1.1 };
      view = tree_view M.place_at c.seat.me.0;
      entries = c.entries.items;
      waiting = option_map (λ stamp. stamp.0) c.waiting;
      held = c.held.items;
      spare = spare_of (vec_capacity c.entries) (length c.entries.items);
      room = vec_capacity c.held - vec_len c.held;
      leads = is_some c.lead;
      cores = c.cores;
    } };

    ghost invariant = { λ c. IsCore M.place_at c.seat c.number.0 c.entries.items c.held.items × LeadsWell c.seat.table_id c.cores c.lead
        × WaitsWell c.entries.items c.waiting };
}

impl<C: Drop, X, G, M: Meaning<C, X, G>> Core<C, X, G, M> {
    /// The core's number.
    pub fn number(&self) -> CoreId
        ensures { result.0 ≡ self.now.view.core }
    {
        self.number
    }

    /// A core has at most 2^50 calls.
    pub fn calls_are_few(&self)
        ensures { length (calls_in self.now.view.mine) ≤ 2 ^ 50 }
    {
        let _ = &self.entries;
    }

    /// Makes room for so many further entries and cells. Where it is refused, the core is as before.
    pub fn reserve(&mut self, entries: u32, cells: u32) -> Result<(), NoMemory>
        ensures entries { OnOk result (entries ≤ self.new.spare) }
        ensures cells { OnOk result (cells ≤ self.new.room) }
        ensures same { record self.new { spare = self.old.spare; room = self.old.room } ≡ self.old }
    {
        if MOST_ENTRIES - (self.entries.len() as u64) < entries as u64 {
            return Err(NoMemory);
        }
        self.entries.reserve(entries as usize)?;
        self.held.reserve(cells as usize)?;
        Ok(())
    }

    /// Holds one cell more, which lies above all that it holds. It waits while another core has the cell.
    pub fn hold_one<R: Wait>(&mut self, rt: &R, shared: &Shared<C, X, G, M>, place: usize)
        requires table { self.old.table ≡ shared.now.table }
        requires cell { place < shared.now.table.id.slots }
        requires above { LiesAbove place self.old.view.held }
        requires room { 0 < self.old.room }
        ensures { HoldsMore (M.lawful shared.now.table.given) (M.stands shared.now.table.given) place self.old self.new }
    {
        let slot = shared.slot_of(place);
        shared.take(rt, &mut self.seat, slot);
        let value = shared.bring(&mut self.seat, slot);
        self.held.push_reserved(HeldCell { place, value });
    }

    /// Holds these cells more, places ascending, each above all that it holds. It waits while another core has one of them.
    pub fn hold<R: Wait>(&mut self, rt: &R, shared: &Shared<C, X, G, M>, places: &[usize])
        requires table { self.old.table ≡ shared.now.table }
        requires cells { AreBelow shared.now.table.id.slots places.now }
        requires above { RiseAbove self.old.view.held places.now }
        requires room { length places.now ≤ self.old.room }
        ensures { HoldsAll (M.lawful shared.now.table.given) (M.stands shared.now.table.given) places.now self.old self.new }
    {
        for place in places {
            self.hold_one(rt, shared, *place);
        }
    }

    /// Adds the entry of a call with this reply, and answers its stamp. An fsync of a live node has want of memory as its reply, and
    /// waits for its answer; no further call is stamped before it.
    pub fn stamp(&mut self, shared: &Shared<C, X, G, M>, call: Call, reply: Reply) -> Stamp
        requires table { self.old.table ≡ shared.now.table }
        requires spare { 0 < self.old.spare }
        requires answered { self.old.waiting ≡ None }
        requires may { MayCall (M.lawful shared.now.table.given) (M.stands shared.now.table.given) self.old.view call reply }
        ensures { Stamps (M.lawful shared.now.table.given) (M.stands shared.now.table.given) call reply self.old result.0 self.new }
    {
        let core = self.number;
        let number = shared.draw::<Brand>(&mut self.seat, core, &call, &reply);
        self.waiting = waiting_with(&call, &reply, Stamp(number));
        self.entries.push_reserved(Entry {
            stamp: Stamp(number),
            core,
            call,
            reply,
            ack: None,
        });
        Stamp(number)
    }

    /// Gives the core's fsync that waits for its answer this reply, and where that is Ok the moment at which it was acknowledged. It
    /// takes no memory.
    pub fn answer(&mut self, stamp: Stamp, reply: Reply, ack: Option<u64>)
        requires waits { self.old.waiting ≡ Some stamp.0 }
        requires reply { IsFsyncReply reply }
        requires acknowledged { IsSome ack ↔ IsTrue (is_ok_reply reply) }
        ensures { GivesAnswer stamp.0 reply ack self.old self.new }
    {
        let Some(
            Entry {
                stamp: last,
                core,
                call,
                reply: _,
                ack: _,
            },
        ) = self.entries.pop()
        else {
            unreachable!()
        };
        self.waiting = None;
        let _stamp = stamp;
        self.entries.push_reserved(Entry {
            stamp: last,
            core,
            call,
            reply,
            ack,
        });
    }

    /// Sees the history so far, and answers how many calls it has.
    pub fn look(&mut self, shared: &Shared<C, X, G, M>) -> u64
        requires table { self.old.table ≡ shared.now.table }
        ensures { Looked (M.lawful shared.now.table.given) (M.stands shared.now.table.given) self.old result self.new }
    {
        shared.look(&mut self.seat)
    }

    /// Sees a history that has so many calls at least. It waits until there are.
    pub fn look_for<R: Wait>(&mut self, rt: &R, shared: &Shared<C, X, G, M>, count: u64) -> u64
        requires table { self.old.table ≡ shared.now.table }
        ensures looked { Looked (M.lawful shared.now.table.given) (M.stands shared.now.table.given) self.old result self.new }
        ensures enough { count ≤ result }
    {
        let mut found = self.look(shared);
        for _ in rt.forever() {
            if count <= found {
                return found;
            }
            let next = self.look(shared);
            found = next;
        }
        unreachable!()
    }

    /// Tells a fact: it stands in the history behind all that came before it. It takes no memory, and there is no end to how many.
    pub fn tell(&mut self, shared: &Shared<C, X, G, M>, fact: &X)
        requires table { self.old.table ≡ shared.now.table }
        requires may { MayTell (M.lawful shared.now.table.given) (M.stands shared.now.table.given) self.old.view fact.now }
        ensures { TellsFact (M.lawful shared.now.table.given) (M.stands shared.now.table.given) fact.now self.old self.new }
    {
        self.tell_by::<Brand>(shared, fact);
    }

    // The same, by a ghost that is the fact.
    fn tell_by<J: Telling<X>>(&mut self, shared: &Shared<C, X, G, M>, fact: &X)
        requires table { self.old.table ≡ shared.now.table }
        requires picked { J.fact ≡ Some fact.now }
        requires may { MayTell (M.lawful shared.now.table.given) (M.stands shared.now.table.given) self.old.view fact.now }
        ensures { TellsFact (M.lawful shared.now.table.given) (M.stands shared.now.table.given) fact.now self.old self.new }
    {
        let _fact = fact;
        self.tell_ghost::<J>(shared);
    }

    /// The same of a fact that is no value at run time: it is told by `J`.
    pub fn tell_ghost<J: Telling<X>>(&mut self, shared: &Shared<C, X, G, M>)
        requires table { self.old.table ≡ shared.now.table }
        requires may { (fact : X) × (J.fact ≡ Some fact) × MayTell (M.lawful shared.now.table.given) (M.stands shared.now.table.given) self.old.view fact }
        ensures { (fact : X) → J.fact ≡ Some fact → TellsFact (M.lawful shared.now.table.given) (M.stands shared.now.table.given) fact self.old self.new }
    {
        shared.tell::<J>(&mut self.seat);
    }

    // Whether the core holds a cell from a place on.
    fn holds_from(&self, from: usize) -> bool
        ensures result { result ≡ begins_from from (reverse self.now.held) }
        ensures places { self.now.view.held ≡ reverse (places_of self.now.held) }
    {
        match self.held.last() {
            Some(cell) => from <= cell.place,
            None => false,
        }
    }

    // Lets go of the last cell.
    fn give_last(&mut self, shared: &Shared<C, X, G, M>)
        requires table { self.old.table ≡ shared.now.table }
        requires some { 0 < length self.old.held }
        requires home { OfLast (Stands (M.lawful shared.now.table.given) (M.stands shared.now.table.given) self.old.view) self.old.held }
        ensures lets_go { LetsGo self.old self.new }
        ensures last { (cell : HeldCell C) × (self.old.held ≡ self.new.held ++ cell ∷ []) }
    {
        let Some(HeldCell { place, value }) = self.held.pop() else {
            unreachable!()
        };
        let slot = shared.slot_of(place);
        shared.put(&mut self.seat, slot, value);
        shared.give(&mut self.seat, slot);
    }

    /// Lets go of each cell from a place on, the last one first.
    pub fn let_go(&mut self, shared: &Shared<C, X, G, M>, from: usize)
        requires table { self.old.table ≡ shared.now.table }
        requires home { EachFrom from (Stands (M.lawful shared.now.table.given) (M.stands shared.now.table.given) self.old.view) self.old.held }
        ensures lets_go { LetsGo self.old self.new }
        ensures left { self.new.held ≡ left_below from self.old.held }
        ensures places { self.new.view.held ≡ reverse (places_of self.new.held) }
    {
        while self.holds_from(from) {
            self.give_last(shared);
        }
    }
}
