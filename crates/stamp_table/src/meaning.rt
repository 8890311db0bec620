// What cells stand for, and what each step on a table tells. The types are for the proofs alone.
ghost use Rattle.std.specs.Prelude.{◌≡◌, ◌<◌, ◌≤◌, ℕ, List, Option, Some, None};
ghost use Rattle.tree_laws.specs.Tree.{TreeState};
ghost use Rattle.stamp_table.specs.declared.event.Event.{Event};
ghost use Rattle.stamp_table.specs.declared.event.Event.TheVariants.{Called};
ghost use Rattle.tree_laws.specs.declared.history.Entry.{Entry};
ghost use Rattle.stamp_table.specs.Rule.{Kept, lock_word};
ghost use Rattle.stamp_table.specs.Steps.{gatherer, one_more, newcomer, gathered, spent, MayTake, Gave, Adds, Looks};
ghost use Rattle.stamp_table.specs.Placing.{MOST_CELLS, IsOneToOne, by_given, at_slots};
ghost use Rattle.stamp_table.specs.Events.{event_core, is_call, LawfulFrom, StandsFrom, told_by, NO_ENTRY, NO_TREE};

use crate::{Event, View};
use atomic_table::{Join, Play, Split, TableRule};
use sfs_tree::Tree;
use std::marker::{Brand, PhantomData};
use std::snapshot::Snapshot;
use tree_laws::Entry;

/// What the cells of a table stand for, and what its cores may tell. Both may speak of a value that was given when the table was made.
pub trait Meaning<C, X, G> {
    /// What was told may stand in a history: of what was given, the first tree and the history.
    ghost lawful: { G → TreeState → List (Event X) → Type 0 };

    /// A value stands for what a history leaves of a cell: of what was given, the first tree, the history, the cell's place and the
    /// value.
    ghost stands: { G → TreeState → List (Event X) → ℕ → C → Type 0 };

    /// Some value that may be given. A seat whose core is gone knows no other.
    ghost nothing: { G };

    /// The slot of memory in which the cell at a place lies: of the number by which the table's cells are laid out, and the place.
    ghost slot_at: { ℕ → ℕ → ℕ };

    /// The place of the cell that lies in a slot.
    ghost place_at: { ℕ → ℕ → ℕ };

    /// Each place has a slot of its own, and each slot a place.
    ghost one_to_one: { (measure : ℕ) → IsOneToOne (slot_at measure) (place_at measure) };

    /// The slot of a place.
    fn slot_of(measure: usize, place: usize) -> usize
        requires { (measure ≤ MOST_CELLS) × (place < MOST_CELLS) }
        ensures { result ≡ slot_at measure place };
}

/// The rule of a table whose cells have this meaning.
pub struct Law<M> {
    meaning: PhantomData<M>,
}

impl<C, X, G, M: Meaning<C, X, G>> TableRule<
    Option<C>,
    View<(Tree, (G, usize)), Event<X>>,
    (Snapshot<Tree>, (Snapshot<G>, Snapshot<usize>)),
> for Law<M> {
    ghost holds = { λ key state. Kept event_core is_call (LawfulFrom (by_given M.lawful)) (StandsFrom (at_slots M.place_at M.stands))
        (key.0.value, (key.1.0.value, key.1.1.value)) state };

    ghost first = { λ key. gatherer (key.0.value, (key.1.0.value, key.1.1.value)) };
}

// A step that takes a cell where its lock word is 0.
pub(crate) struct Take<M> {
    meaning: PhantomData<M>,
}

impl<C, X, G, M: Meaning<C, X, G>> Play<Option<C>, View<(Tree, (G, usize)), Event<X>>> for Take<M> {
    ghost then = { λ step before found after. (slot : ℕ) → step.word ≡ lock_word slot
        → MayTake event_core is_call (LawfulFrom (by_given M.lawful)) (StandsFrom (at_slots M.place_at M.stands)) slot before found after };
}

// A step that gives the cell back that was taken last.
pub(crate) struct Give;

impl<C, X, G> Play<Option<C>, View<(Tree, (G, usize)), Event<X>>> for Give {
    ghost then = { λ step before found after. Gave before after };
}

// The entry that a draw adds, by the number that it draws.
pub(crate) trait Drawing {
    ghost entry: { ℕ → Entry };
}

impl Drawing for Brand {
    ghost entry = { NO_ENTRY };
}

// A step that draws a stamp for an entry.
pub(crate) struct Draw<M, J> {
    drawing: PhantomData<(M, J)>,
}

impl<C, X, G, M: Meaning<C, X, G>, J: Drawing> Play<Option<C>, View<(Tree, (G, usize)), Event<X>>>
    for Draw<M, J> {
    ghost then = { λ step before found after. Adds event_core is_call (LawfulFrom (by_given M.lawful)) (StandsFrom (at_slots M.place_at M.stands))
        (λ number. Called (J.entry number)) before found after };
}

/// The fact that a step tells, where it is no value at run time.
pub trait Telling<X> {
    ghost fact: { Option X };
}

impl<X> Telling<X> for Brand {
    ghost fact = { None };
}

// A step that tells a fact.
pub(crate) struct Tell<M, J> {
    telling: PhantomData<(M, J)>,
}

impl<C, X, G, M: Meaning<C, X, G>, J: Telling<X>> Play<
    Option<C>,
    View<(Tree, (G, usize)), Event<X>>,
> for Tell<M, J> {
    ghost then = { λ step before found after. (fact : X) → J.fact ≡ Some fact
        → Adds event_core is_call (LawfulFrom (by_given M.lawful)) (StandsFrom (at_slots M.place_at M.stands))
        (told_by before.0.core fact) before found after };
}

// A step that looks how many calls there are.
pub(crate) struct Look<M> {
    meaning: PhantomData<M>,
}

impl<C, X, G, M: Meaning<C, X, G>> Play<Option<C>, View<(Tree, (G, usize)), Event<X>>> for Look<M> {
    ghost then = { λ step before found after. Looks event_core is_call (LawfulFrom (by_given M.lawful))
        (StandsFrom (at_slots M.place_at M.stands)) before found after };
}

// One more core is made.
pub(crate) struct Make;

impl<X, G> Split<View<(Tree, (G, usize)), Event<X>>> for Make {
    ghost left = { λ view. one_more view };

    ghost right = { λ view. newcomer view };
}

// The list of the next core is gathered.
pub(crate) struct Gather<C, M> {
    gathering: PhantomData<(C, M)>,
}

impl<C, X, G, M: Meaning<C, X, G>> Join<View<(Tree, (G, usize)), Event<X>>> for Gather<C, M> {
    ghost both = { λ view other. gathered view other };

    ghost spent = { spent (NO_TREE, (M.nothing, 0)) };
}
