// What a commit changes of a directory's slots, beside the blocks that it leaves as they are.
ghost use Rattle.std.specs.Prelude.{◌≡◌, ◌+◌, [], length, slice_get, slice_index_or};
ghost use Rattle.std.specs.Option.{option_copied};
ghost use Rattle.disk_change.specs.Patched.{FitsBlocks, patched};
ghost use Rattle.disk_change.specs.Seat.{has_no_row, blocks_to_last_row as rows_end};

use crate::placed::PlacedSlots;
use crate::rewritten::is_empty;
use fmt_slots::SlotBlock;
use std::alloc::Global;
use std::marker::Model;

// Blocks that get other slots, ascending by place, and those that come behind all that were there.
#[derive(Drop)]
pub(crate) struct SlotPatch {
    pub(crate) changed: Vec<PlacedSlots>,
    pub(crate) further: Vec<SlotBlock>,
}

impl Model for SlotPatch {
    ghost use Rattle.keyed_list.specs.Ascending.{AscendBy};
    ghost use Rattle.disk_change.specs.Patched.{SlotsPatch, slots_place};

    ghost Value = { SlotsPatch };

    ghost view = { λ p. record { changed = p.changed.items; further = p.further.items } };

    ghost invariant = { λ p. AscendBy slots_place p.changed.items };
}

// A patch that changes nothing.
pub(crate) fn no_patch(alloc: Global) -> SlotPatch
    ensures { result ≡ record { changed = []; further = [] } }
{
    SlotPatch {
        changed: Vec::new(alloc),
        further: Vec::new(alloc),
    }
}

// How many blocks there are with a patch.
pub(crate) fn count_of(slots: &[SlotBlock], patch: &SlotPatch) -> usize
    requires { FitsBlocks slots.now patch.now }
    ensures { result ≡ length (patched patch.now slots.now) }
{
    slots.len() + patch.further.len()
}

// The block of a place with a patch, where there is one.
pub(crate) fn block_of<'a>(
    slots: &'a [SlotBlock],
    patch: &'a SlotPatch,
    n: usize,
) -> Option<&'a SlotBlock>
    ensures { option_copied result ≡ slice_get (patched patch.now slots.now) n }
{
    if n >= slots.len() {
        return further_at(patch, n - slots.len());
    }
    match patch.changed.binary_search_by_key(&n, |one| one.place) {
        Ok(at) => Some(&patch.changed[at].slots),
        Err(_) => Some(&slots[n]),
    }
}

// The further block of a place behind all that were there.
fn further_at(patch: &SlotPatch, n: usize) -> Option<&SlotBlock>
    ensures { option_copied result ≡ slice_get patch.now.further n }
{
    patch.further.get(n)
}

// Whether the block of a place has no row with a patch.
pub(crate) fn is_empty_at(slots: &[SlotBlock], patch: &SlotPatch, n: usize) -> bool
    ensures { result ≡ has_no_row (slice_index_or (patched patch.now slots.now) n []) }
{
    match block_of(slots, patch, n) {
        Some(block) => is_empty(block),
        None => true,
    }
}

// How many blocks there are with a patch up to the last one that has a row.
pub(crate) fn end_of(slots: &[SlotBlock], patch: &SlotPatch) -> usize
    requires { FitsBlocks slots.now patch.now }
    ensures { result ≡ rows_end (patched patch.now slots.now) }
{
    let mut end = count_of(slots, patch);
    while end > 0 && is_empty_at(slots, patch, end - 1) {
        end -= 1;
    }
    end
}
