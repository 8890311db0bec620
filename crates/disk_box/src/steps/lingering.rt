// Durable commits that linger in their slots: which is the oldest, and whether a record may be placed.
ghost use Rattle.std.specs.Prelude.{◌≡◌, ◌<◌, ℕ, Some, IfNone, IfSome, length, slice_get};
ghost use Rattle.std.specs.List.{list_any};
ghost use Rattle.std.specs.List.Sorted.{IsStrictlyIncreasing};
ghost use Rattle.sfs_base.specs.Listed.{is_listed};
ghost use Rattle.disk_box.specs.declared.desk.Slot.{Slot as SlotView};
ghost use Rattle.disk_box.specs.declared.kind.Kind.TheVariants as kind;
ghost use Rattle.disk_box.specs.Calls.{written_of};
ghost use Rattle.disk_box.specs.Kind.{HasKind};
ghost use Rattle.disk_box.specs.Oldest.{AreTold, FoundLeast, IsOldestSlot, LingeringAscend, goes_before, is_next_oldest, next_inode};
ghost use Rattle.disk_box.specs.Steps.{Lingers};

use crate::{Desk, Slot};

/// Of the slots with a durable commit of which records are to be placed or the gate is to be shut, the one with the least commit stamp.
pub fn oldest<D>(desk: &Desk<D>) -> Option<usize>
    ensures some { IfSome result (λ k. IsOldestSlot desk.now.slots.items k) }
    ensures none { IfNone result ((k : ℕ) → Lingers desk.now.slots.items k → ⊥) }
{
    least_of(&desk.slots)
}

// The same of a list.
fn least_of(slots: &[Slot]) -> Option<usize>
    ensures { FoundLeast slots.now (length slots.now) result }
{
    let mut least = None;
    for k in 0..slots.len() {
        if slots[k].phase.kind().is_lingering() {
            least = match least {
                Some(one) if slots[one].drawn <= slots[k].drawn => Some(one),
                _ => Some(k),
            };
        }
    }
    least
}

/// Whether the next record of a durable commit in a slot may be placed: no other durable commit in a slot has a record of its inode and a
/// smaller commit stamp. It searches each other slot's inodes by halves.
pub fn may_place<D>(desk: &Desk<D>, k: usize) -> bool
    requires told { AreTold desk.now.slots.items }
    requires kind { HasKind desk.now.slots.items k kind.Durable }
    ensures is { (slot : SlotView) → slice_get desk.now.slots.items k ≡ Some slot → result ≡ is_next_oldest desk.now.slots.items slot }
{
    let slot = &desk.slots[k];
    let Some(next) = slot.inodes.get(slot.phase.written() as u64) else {
        unreachable!()
    };
    !any_before(&desk.slots, slot.drawn, *next)
}

// Whether a slot has a record of an inode, of a durable commit with a smaller commit stamp than this.
fn any_before(slots: &[Slot], drawn: u64, inode: u32) -> bool
    requires ascend { (j : ℕ) (slot : SlotView) → slice_get slots.now j ≡ Some slot → LingeringAscend slot }
    ensures { result ≡ list_any (goes_before drawn inode) slots.now }
{
    for j in 0..slots.len() {
        if is_before(&slots[j], drawn, inode) {
            return true;
        }
    }
    false
}

// The same of one slot.
fn is_before(slot: &Slot, drawn: u64, inode: u32) -> bool
    requires { LingeringAscend slot.now }
    ensures { result ≡ goes_before drawn inode slot.now }
{
    slot.phase.kind().is_lingering() && slot.drawn < drawn && is_in(slot.inodes.as_slice(), inode)
}

// Whether a number is in an ascending list.
fn is_in(numbers: &[u32], number: u32) -> bool
    requires { IsStrictlyIncreasing numbers.now }
    ensures { result ≡ is_listed numbers.now number }
{
    match numbers.binary_search(&number) {
        Ok(_) => true,
        Err(_) => false,
    }
}
