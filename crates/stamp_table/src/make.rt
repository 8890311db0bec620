// The beginning of a table and of its cores.
ghost use Rattle.std.specs.Prelude.{◌≡◌, ◌<◌, ◌≤◌, ◌^◌, ℕ, [], ◌∷◌, ◌+◌, true, false, length, map, replicate, slice_get, Some, None, IfOk, IfErr};
ghost use mathlib.Core.Option.{some};
ghost use lib.ListN.{get_elem?};
ghost use Rattle.tree_laws.specs.Tree.{TreeState};
ghost use Rattle.stamp_table.specs.Placing.{MOST_CELLS, IsLaidOut};
ghost use Rattle.stamp_table.specs.Steps.{gatherer, newcomer};
ghost use Rattle.stamp_table.specs.Events.{tree_view};
ghost use Rattle.stamp_table.specs.Hand.{IsLead};
ghost use Rattle.stamp_table.specs.Table.{AreAllCores, AreIdleFrom, AreInSlots, AreNew, CoresHaveRoom, HaveRoomFor, IsIdleCore, IsNew, IsBegun, IsTableOf};
ghost use Rattle.std.specs.Vec.{vec_capacity};
ghost use Rattle.stamp_table.specs.Rule.{LOCKS};

use crate::meaning::Make;
use crate::shared::{CoreSeat, Key, LOCKS};
use crate::{Core, Event, HeldCell, Law, Meaning, Shared, View};
use atomic_table::{Refused, Table};
use sfs_base::{CoreId, NoMemory};
use sfs_tree::Tree;
use std::alloc::Global;
use std::marker::PhantomData;
use std::snapshot::Snapshot;
use tree_laws::Entry;

// How many cells a table has at most.
const MOST_CELLS: usize = 1 << 32;

impl<C: Drop, X, G, M: Meaning<C, X, G>> Core<C, X, G, M> {
    // A core that begins, with room for cells. It takes no memory.
    fn begin(
        alloc: Global,
        seat: CoreSeat<C, X, G>,
        number: CoreId,
        cores: u8,
        held: Vec<HeldCell<C>>,
    ) -> Core<C, X, G, M>
        requires none { held.items ≡ [] }
        requires number { seat.me.0.core ≡ number.0 }
        requires view { IsBegun seat }
        ensures ready { IsIdleCore (record { id = seat.table_id; given = seat.me.0.first.1.0; measure = seat.me.0.first.1.1 }) cores seat.me.0.core result }
        ensures view { result.view ≡ tree_view M.place_at seat.me.0 }
        ensures leads { result.leads ≡ false }
        ensures entries { result.entries ≡ [] }
        ensures waiting { result.waiting ≡ None }
        ensures room { result.room ≡ vec_capacity held }
    {
        Core {
            seat,
            lead: None,
            number,
            cores,
            entries: Vec::new(alloc),
            waiting: None,
            held,
            apart: [0; 8],
            meaning: PhantomData,
        }
    }

    // Gives the core the seat that gathers.
    fn lead_with(&mut self, lead: CoreSeat<C, X, G>)
        requires { IsLead self.old.table.id self.old.cores lead }
        ensures { self.new ≡ record self.old { leads = true } }
    {
        self.lead = Some(lead);
    }
}

// So many words, all 0.
fn zeros(alloc: Global, count: usize) -> Result<Vec<u64>, NoMemory>
    ensures { IfOk result (λ words. words.items ≡ replicate count 0) }
{
    Ok(vec![in alloc; 0u64; count]?)
}

// So many slots, all empty.
fn empty<C: Drop>(alloc: Global, count: usize) -> Result<Vec<Option<C>>, NoMemory>
    ensures { IfOk result (λ slots. length slots.items ≡ count) }
{
    let mut slots = Vec::with_capacity(alloc, count)?;
    for _ in 0..count {
        slots.push_reserved(None);
    }
    Ok(slots)
}

// So many lists, each with room for so many cells.
fn held_lists<C: Drop>(
    alloc: Global,
    count: u8,
    room: u32,
) -> Result<Vec<Vec<HeldCell<C>>>, NoMemory>
    ensures count { IfOk result (λ lists. length lists.items ≡ count) }
    ensures room { IfOk result (λ lists. HaveRoomFor room lists.items) }
{
    let mut lists = Vec::with_capacity(alloc, count as usize)?;
    for _ in 0..count {
        let list = Vec::with_capacity(alloc, room as usize)?;
        lists.push_reserved(list);
    }
    Ok(lists)
}

// The memory of a table beside its values: its words, and room for its cores' lists, for its values at the end, for its cores, and for what each
// of these holds.
struct Room<C: Drop, X, G, M: Meaning<C, X, G>> {
    words: Vec<u64>,
    parts: Vec<Vec<Entry>>,
    values: Vec<C>,
    hands: Vec<Core<C, X, G, M>>,
    held: Vec<Vec<HeldCell<C>>>,
}

impl<C: Drop, X, G, M: Meaning<C, X, G>> Room<C, X, G, M> {
    // That of a table of so many cells and cores, each of which can hold so many cells.
    fn new(alloc: Global, cells: usize, cores: u8, room: u32) -> Result<Self, NoMemory>
        requires few { cells ≤ MOST_CELLS }
        ensures words { IfOk result (λ room. room.words.items ≡ replicate (LOCKS + cells) 0) }
        ensures parts { IfOk result (λ room. (room.parts.items ≡ []) × (cores ≤ vec_capacity room.parts)) }
        ensures values { IfOk result (λ room. (room.values.items ≡ []) × (cells ≤ vec_capacity room.values)) }
        ensures hands { IfOk result (λ room. (room.hands.items ≡ []) × (cores ≤ vec_capacity room.hands)) }
        ensures held { IfOk result (λ made. (length made.held.items ≡ cores) × HaveRoomFor room made.held.items) }
    {
        Ok(Room {
            words: zeros(alloc, LOCKS + cells)?,
            parts: Vec::with_capacity(alloc, cores as usize)?,
            values: Vec::with_capacity(alloc, cells)?,
            hands: Vec::with_capacity(alloc, cores as usize)?,
            held: held_lists(alloc, cores, room)?,
        })
    }
}

impl<C: Drop, X, G, M: Meaning<C, X, G>> Shared<C, X, G, M> {
    // The cores of a table, by their numbers.
    fn cores_of(
        alloc: Global,
        table: &Table<Option<C>, View<(Tree, (G, usize)), Event<X>>, Key<G>, Law<M>, Global>,
        lead: &mut CoreSeat<C, X, G>,
        cores: u8,
        mut hands: Vec<Core<C, X, G, M>>,
        held: Vec<Vec<HeldCell<C>>>,
    ) -> Vec<Core<C, X, G, M>>
        requires words { 0 < table.now.shared.table_id.words }
        requires room { (hands.items ≡ []) × (cores ≤ vec_capacity hands) }
        requires held { (length held.items ≡ cores) × HaveRoomFor 0 held.items }
        requires lead { (lead.old.table_id ≡ table.now.shared.table_id)
            × (lead.old.me ≡ (gatherer (table.now.shared.key.0.value, (table.now.shared.key.1.0.value, table.now.shared.key.1.1.value)), [])) }
        ensures count { length result.items ≡ cores }
        ensures ready { AreIdleFrom (record { id = table.now.shared.table_id; given = table.now.shared.key.1.0.value; measure = table.now.shared.key.1.1.value }) cores 0
            result.items }
        ensures new { AreNew table.now.shared.key.0.value result.items }
        ensures lead { IsLead table.now.shared.table_id cores lead.new }
        ensures room { (room : ℕ) → HaveRoomFor room held.items → CoresHaveRoom room result.items }
    {
        let mut number = 0;
        for list in held {
            let seat = table.shared.split_seat::<Make>(lead);
            hands.push_reserved(Core::begin(alloc, seat, CoreId(number), cores, list));
            number += 1;
        }
        hands
    }

    // The values, each in the slot of its place.
    fn slots_of(alloc: Global, measure: usize, cells: Vec<C>) -> Result<Vec<Option<C>>, NoMemory>
        requires few { length cells.items ≤ MOST_CELLS }
        requires laid { IsLaidOut (length cells.items) (M.slot_at measure) (M.place_at measure) measure }
        ensures count { IfOk result (λ slots. length slots.items ≡ length cells.items) }
        ensures each { IfOk result (λ slots. (place : ℕ) (value : C) → slice_get cells.items place ≡ Some value
            → get_elem? slots.items (M.slot_at measure place) ≡ some (Some value)) }
    {
        let mut slots = empty(alloc, cells.len())?;
        let mut place = 0;
        for cell in cells {
            slots[M::slot_of(measure, place)] = Some(cell);
            place += 1;
        }
        Ok(slots)
    }

    /// A table over a tree and what is given beside it, with these values as its cells, each at its place, and its cores, ascending by
    /// number. Each value stands for what no call leaves of its cell. `measure` is the number by which the cells are laid out in memory.
    pub fn make(
        alloc: Global,
        first: &Tree,
        given: Snapshot<G>,
        measure: usize,
        cells: Vec<C>,
        cores: u8,
    ) -> Result<(Shared<C, X, G, M>, Vec<Core<C, X, G, M>>), NoMemory>
        requires cores { (0 < cores) × (cores ≡ length first.now.made) }
        requires cells { (place : ℕ) (value : C) → slice_get cells.items place ≡ Some value → M.stands given.value first.now [] place value }
        requires lawful { M.lawful given.value first.now [] }
        requires laid { IsLaidOut (length cells.items) (M.slot_at measure) (M.place_at measure) measure }
        ensures first { IfOk result (λ made. made.0.first ≡ first.now) }
        ensures given { IfOk result (λ made. made.0.table.given ≡ given.value) }
        ensures measure { IfOk result (λ made. made.0.table.measure ≡ measure) }
        ensures slots { IfOk result (λ made. made.0.table.id.slots ≡ length cells.items) }
        ensures made { IfOk result (λ made. made.0.cores ≡ length made.0.first.made) }
        ensures count { IfOk result (λ made. length made.1.items ≡ cores) }
        ensures cores { IfOk result (λ made. AreAllCores made.0 made.1.items) }
        ensures new { IfOk result (λ made. AreNew first.now made.1.items) }
    {
        if cells.len() > MOST_CELLS {
            return Err(NoMemory);
        }
        let slots = Self::slots_of(alloc, measure, cells)?;
        match Self::make_of_slots(alloc, first, given, measure, slots, (cores, 0)) {
            Ok(made) => Ok(made),
            Err(_) => Err(NoMemory),
        }
    }

    /// The same of values that lie in the slots of their places already, and with room in each core for so many cells: `cores` has the count of
    /// cores and that of cells. Where memory is wanting the values are handed back.
    pub fn make_of_slots(
        alloc: Global,
        first: &Tree,
        given: Snapshot<G>,
        measure: usize,
        slots: Vec<Option<C>>,
        cores: (u8, u32),
    ) -> Result<(Shared<C, X, G, M>, Vec<Core<C, X, G, M>>), Vec<Option<C>>>
        requires cores { (0 < cores.0) × (cores.0 ≡ length first.now.made) }
        requires cells { AreInSlots M.stands M.place_at given.value measure first.now slots.items }
        requires lawful { M.lawful given.value first.now [] }
        requires laid { IsLaidOut (length slots.items) (M.slot_at measure) (M.place_at measure) measure }
        ensures table { IfOk result (λ made. IsTableOf first.now given.value measure (length slots.items) made.0) }
        ensures count { IfOk result (λ made. length made.1.items ≡ cores.0) }
        ensures cores { IfOk result (λ made. AreAllCores made.0 made.1.items) }
        ensures new { IfOk result (λ made. AreNew first.now made.1.items) }
        ensures room { IfOk result (λ made. CoresHaveRoom cores.1 made.1.items) }
        ensures back { IfErr result (λ back. back.items ≡ slots.items) }
    {
        let count = slots.len();
        let (cores, room) = cores;
        if count > MOST_CELLS {
            return Err(slots);
        }
        let Ok(room) = Room::new(alloc, count, cores, room) else {
            return Err(slots);
        };
        let Room {
            words,
            parts,
            values,
            hands,
            held,
        } = room;
        let key = (Snapshot::of(first), (given, Snapshot::of(&measure)));
        let (table, mut lead) = match Table::new(alloc, words.as_slice(), slots, &key) {
            Ok(made) => made,
            Err(Refused { slots }) => return Err(slots),
        };
        let mut hands = Self::cores_of(alloc, &table, &mut lead, cores, hands, held);
        hands[0].lead_with(lead);
        let shared = Shared {
            table,
            cells: count,
            cores,
            parts,
            measure,
            values,
        };
        Ok((shared, hands))
    }
}
