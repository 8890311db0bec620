// Slots of a core's own.
ghost use Rattle.std.specs.Prelude.{◌≡◌, ◌<◌, ◌≤◌, ℕ, true, length, IfSome, IfNone};
ghost use Rattle.disk_box.specs.Oldest.{AreTold};
ghost use Rattle.journal_set.specs.OwnSlots.{IsOwnSlot, MayPlace};

use disk_box::{Desk, Kind, may_place, others_write};
use sfs_base::CoreId;

/// The first slot of a core's own that is in this phase.
pub(crate) fn own_with<D>(desk: &Desk<D>, core: CoreId, what: Kind) -> Option<usize>
    requires cores { 0 < length desk.now.waits.items }
    requires slots { length desk.now.waits.items ≤ length desk.now.slots.items }
    ensures some { IfSome result (IsOwnSlot desk.now.slots.items (length desk.now.waits.items) core.0 what) }
    ensures none { IfNone result ((k : ℕ) → IsOwnSlot desk.now.slots.items (length desk.now.waits.items) core.0 what k → ⊥) }
{
    for k in 0..desk.slots.len() {
        if is_own_with(desk, core, what, k) {
            return Some(k);
        }
    }
    None
}

// Whether a slot is a core's own, and in this phase.
fn is_own_with<D>(desk: &Desk<D>, core: CoreId, what: Kind, k: usize) -> bool
    requires cores { 0 < length desk.now.waits.items }
    requires slots { length desk.now.waits.items ≤ length desk.now.slots.items }
    requires within { k < length desk.now.slots.items }
    ensures yes { result ≡ true → IsOwnSlot desk.now.slots.items (length desk.now.waits.items) core.0 what k }
    ensures only { IsOwnSlot desk.now.slots.items (length desk.now.waits.items) core.0 what k → result ≡ true }
{
    desk.owner_of(k) == core.0 as usize && desk.kind_at(k) == what
}

/// The first slot of a core's own with a durable commit whose next record may be placed.
pub(crate) fn own_to_place<D>(desk: &Desk<D>, core: CoreId) -> Option<usize>
    requires cores { 0 < length desk.now.waits.items }
    requires slots { length desk.now.waits.items ≤ length desk.now.slots.items }
    requires told { AreTold desk.now.slots.items }
    ensures some { IfSome result (MayPlace desk.now.slots.items) }
{
    let own = core.0 as usize;
    for k in 0..desk.slots.len() {
        if desk.owner_of(k) == own && places_next(desk, k) {
            return Some(k);
        }
    }
    None
}

// Whether a slot has a durable commit whose next record may be placed.
fn places_next<D>(desk: &Desk<D>, k: usize) -> bool
    requires within { k < length desk.now.slots.items }
    requires told { AreTold desk.now.slots.items }
    ensures { result ≡ true → MayPlace desk.now.slots.items k }
{
    desk.kind_at(k) == Kind::Durable && may_place(desk, k)
}

// Whether a slot's gate is opened, and its core has another to shut, whose records are on the disk.
fn shuts_next<D>(desk: &Desk<D>, owner: usize, k: usize) -> bool
    requires cores { 0 < length desk.now.waits.items }
    requires slots { length desk.now.waits.items ≤ length desk.now.slots.items }
    requires within { k < length desk.now.slots.items }
{
    desk.kind_at(k) == Kind::Opened && has_copied(desk, owner)
}

// Whether a core has a slot whose records are on the disk.
fn has_copied<D>(desk: &Desk<D>, owner: usize) -> bool
    requires cores { 0 < length desk.now.waits.items }
    requires slots { length desk.now.waits.items ≤ length desk.now.slots.items }
{
    for k in 0..desk.slots.len() {
        if desk.owner_of(k) == owner && desk.kind_at(k) == Kind::Copied {
            return true;
        }
    }
    false
}

// Whether another core has opened a gate, and has another to shut before it syncs.
fn others_shut<D>(desk: &Desk<D>, core: CoreId) -> bool
    requires cores { 0 < length desk.now.waits.items }
    requires slots { length desk.now.waits.items ≤ length desk.now.slots.items }
{
    let own = core.0 as usize;
    for k in 0..desk.slots.len() {
        let owner = desk.owner_of(k);
        if owner != own && shuts_next(desk, owner, k) {
            return true;
        }
    }
    false
}

/// Whether a core that is about to sync lets others write first: so often it may yet.
pub(crate) fn lets_others_write<D>(desk: &Desk<D>, core: CoreId, patience: &mut u32) -> bool
    requires cores { 0 < length desk.now.waits.items }
    requires slots { length desk.now.waits.items ≤ length desk.now.slots.items }
    ensures bounded { result ≡ true → patience.new < patience.old }
{
    if *patience == 0 || !(others_write(desk, core) || others_shut(desk, core)) {
        return false;
    }
    *patience -= 1;
    true
}
