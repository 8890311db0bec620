// The end of a table: the cores' lists make one history.
ghost use Rattle.std.specs.Prelude.{◌≡◌, ◌<◌, ◌≤◌, ◌++◌, ◌∷◌, ℕ, List, [], true, length, map, filter, slice_get, Some};
ghost use Rattle.std.specs.Vec.{vec_capacity};
ghost use Rattle.tree_laws.specs.History.{IsLegal};
ghost use Rattle.tree_laws.specs.Merged.{is_core};
ghost use Rattle.std.specs.Mem.Slots.{IsFull, slots_items, slots_len};
ghost use Rattle.std.specs.List.{AllZip};
ghost use mathlib.Core.Option.{some};
ghost use lib.ListN.{get_elem?};
ghost use Rattle.tree_laws.specs.Tree.{TreeState};
ghost use Rattle.stamp_table.specs.Answered.{AreCallsOf};
ghost use Rattle.stamp_table.specs.Placing.{MOST_CELLS, IsLaidOut};
ghost use Rattle.stamp_table.specs.declared.event.Event.{Event};
ghost use Rattle.stamp_table.specs.Hand.{Desk, Hand, IsLead};
ghost use Rattle.stamp_table.specs.Table.{AreAllCores, AreIdleFrom, first_leads, mine_of, events_seen, answered_entries, IsSameSeat, IsLogAtEnd, AreAtHome};

use crate::meaning::Gather;
use crate::shared::{CoreSeat, Key};
use crate::{Core, Event, Law, Meaning, Shared, View};
use atomic_table::{Closed, Table};
use sfs_tree::Tree;
use std::alloc::Global;
use tree_laws::{Entry, History};

impl<C: Drop, X, G, M: Meaning<C, X, G>> Core<C, X, G, M> {
    // The seat that gathers, which the first core has.
    fn take_lead(&mut self) -> CoreSeat<C, X, G>
        requires { self.old.leads ≡ true }
        ensures lead { IsLead self.old.table.id self.old.cores result }
        ensures same { record self.new { leads = true } ≡ self.old }
    {
        let Some(lead) = self.lead.take() else {
            unreachable!()
        };
        lead
    }
}

// Gathers the list of the next core.
fn gather<C: Drop, X, G, M: Meaning<C, X, G>>(
    table: &Table<Option<C>, View<(Tree, (G, usize)), Event<X>>, Key<G>, Law<M>, Global>,
    lead: &mut CoreSeat<C, X, G>,
    core: Core<C, X, G, M>,
) -> Vec<Entry>
    requires words { 0 < table.now.shared.table_id.words }
    requires lead { (lead.old.table_id ≡ table.now.shared.table_id) × (lead.old.me.0.gathers ≡ true) }
    requires core { (core.table.id ≡ table.now.shared.table_id) × (core.view.core ≡ length lead.old.me.0.lists) × (core.held ≡ []) }
    ensures same { IsSameSeat lead.old lead.new }
    ensures lists { lead.new.me.0.lists ≡ lead.old.me.0.lists ++ core.view.mine ∷ [] }
    ensures saws { lead.new.me.0.saws ≡ lead.old.me.0.saws ++ core.view.seen ∷ [] }
    ensures gathers { (lead.new.me.0.gathers ≡ true) × (lead.new.me.0.cores ≡ lead.old.me.0.cores) }
    ensures entries { result.items ≡ core.entries }
    ensures calls { AreCallsOf core.view.mine core.entries }
{
    let Core {
        seat,
        lead: _,
        number: _,
        cores: _,
        entries,
        waiting: _,
        held: _,
        apart: _,
        meaning: _,
    } = core;
    table.shared.join_seat::<Gather<C, M>>(lead, seat);
    entries
}

// The seat that gathers, which the first of the cores has.
fn first_lead<C: Drop, X, G, M: Meaning<C, X, G>>(
    cores: &mut Vec<Core<C, X, G, M>>,
) -> CoreSeat<C, X, G>
    requires { first_leads cores.old.items ≡ true }
    ensures ready { (table : Desk G) (count : ℕ) → AreIdleFrom table count 0 cores.old.items
        → AreIdleFrom table count 0 cores.new.items × IsLead table.id count result }
    ensures mine { map mine_of cores.new.items ≡ map mine_of cores.old.items }
    ensures seen { map events_seen cores.new.items ≡ map events_seen cores.old.items }
    ensures entries { map answered_entries cores.new.items ≡ map answered_entries cores.old.items }
{
    cores[0].take_lead()
}

// Gathers the lists of all cores.
fn gather_all<C: Drop, X, G, M: Meaning<C, X, G>>(
    table: &Table<Option<C>, View<(Tree, (G, usize)), Event<X>>, Key<G>, Law<M>, Global>,
    mut cores: Vec<Core<C, X, G, M>>,
    mut parts: Vec<Vec<Entry>>,
) -> (CoreSeat<C, X, G>, Vec<Vec<Entry>>)
    requires words { 0 < table.now.shared.table_id.words }
    requires leads { first_leads cores.items ≡ true }
    requires ready { AreIdleFrom (record { id = table.now.shared.table_id; given = table.now.shared.key.1.0.value; measure = table.now.shared.key.1.1.value })
        (length cores.items) 0 cores.items }
    requires room { (parts.items ≡ []) × (length cores.items ≤ vec_capacity parts) }
    ensures lead { (result.0.table_id ≡ table.now.shared.table_id) × (result.0.me.0.gathers ≡ true) }
    ensures cores { result.0.me.0.cores ≡ length cores.items }
    ensures lists { result.0.me.0.lists ≡ map mine_of cores.items }
    ensures saws { result.0.me.0.saws ≡ map events_seen cores.items }
    ensures parts { map (λ part. part.items) result.1.items ≡ map answered_entries cores.items }
    ensures calls { AllZip AreCallsOf (map mine_of cores.items) (map answered_entries cores.items) }
{
    let mut lead = first_lead(&mut cores);
    for core in cores {
        let entries = gather(table, &mut lead, core);
        parts.push_reserved(entries);
    }
    (lead, parts)
}

impl<C: Drop, X, G, M: Meaning<C, X, G>> Shared<C, X, G, M> {
    /// Ends the table, and answers the history and the cells' values. The history is legal from the first tree on, and each core's
    /// entries stand in it, with their answers, once and in their order. What cores told stands in a log of which the history has the
    /// calls, and each value, in the order of places, stands for what this log leaves of its cell. It takes all cores of the table,
    /// ascending by number, none of which holds a cell. It takes no memory.
    pub fn close(self, cores: Vec<Core<C, X, G, M>>) -> (History, Vec<C>)
        requires { AreAllCores self cores.items }
        ensures legal { IsLegal self.first result.0 }
        ensures own { (core : ℕ) (hand : Hand C X G) → slice_get cores.items core ≡ Some hand → filter (is_core core) result.0 ≡ hand.entries }
        ensures log { (log : List (Event X)) × IsLogAtEnd (M.lawful self.table.given) self.first cores.items result.0 log
            × AreAtHome (M.stands self.table.given) self.first log self.table.id.slots result.1.items }
    {
        let Shared {
            table,
            cells: _,
            cores: _,
            parts,
            measure,
            values,
        } = self;
        let (lead, parts) = gather_all(&table, cores, parts);
        let values = Self::values_of(table.close_with(lead), measure, values);
        (History::from_parts(parts), values)
    }

    // The values of a table's cells, all of which lie at home, in the order of their places, and lets its memory go.
    fn values_of(
        mut closed: Closed<Option<C>, Global>,
        measure: usize,
        mut values: Vec<C>,
    ) -> Vec<C>
        requires full { IsFull closed.slots }
        requires home { (inside : List C) × (slots_items closed.slots ≡ map Some inside) }
        requires room { (values.items ≡ []) × (slots_len closed.slots ≤ vec_capacity values) }
        requires few { slots_len closed.slots ≤ MOST_CELLS }
        requires laid { IsLaidOut (slots_len closed.slots) (M.slot_at measure) (M.place_at measure) measure }
        ensures count { length result.items ≡ slots_len closed.slots }
        ensures each { (place : ℕ) (value : C) → slice_get result.items place ≡ Some value
            → get_elem? (slots_items closed.slots) (M.slot_at measure place) ≡ some (Some value) }
    {
        let mut place = 0;
        while place < closed.slot_count() {
            let Some(value) = closed.take(M::slot_of(measure, place)) else {
                unreachable!()
            };
            values.push_reserved(value);
            place += 1;
        }
        closed.free();
        values
    }
}
