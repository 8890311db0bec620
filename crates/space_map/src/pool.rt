ghost use Rattle.std.specs.Prelude.{◌≡◌, ◌+◌, ◌*◌, ◌/◌, ◌<◌, ◌≤◌, ℕ, true, false, [], ◌∷◌, length, take, position, slice_set, slice_index_or, None, IfOk, IfSome, IfNone, MatchOption};
ghost use Rattle.space_map.specs.Pool.{status_of, is_free, free_count, free_numbers, Changes, Ends, Grants, first_status};
ghost use Rattle.space_map.specs.Change.{changed};
ghost use Rattle.space_map.specs.Groups.{NoneFreeBelow, MarksHold};
ghost use Rattle.space_map.specs.declared.status.Status.TheVariants.{Free, Taken, Granted};

use crate::Status;
use crate::status::Change;
use sfs_base::{NoMemory, RoomyList};
use std::alloc::Global;
use std::marker::Model;

// How many numbers share a mark.
const GROUP: usize = 64;

/// A row of numbers, each free, taken or granted. The marks let a search pass over groups of
/// numbers of which none is free.
#[derive(Drop)]
pub(crate) struct Pool {
    first: u32,
    statuses: Vec<Status>,
    spent: Vec<bool>,
    free: u32,
}

impl Model for Pool {
    ghost use Rattle.space_map.specs.Pool.{Pool};

    ghost Value = { Pool };

    ghost use Rattle.space_map.specs.Groups.{KeepsGroups};

    ghost view = { λ pool. record { first = pool.first; statuses = pool.statuses.items } };

    ghost invariant = { λ pool. KeepsGroups pool.first pool.statuses.items pool.spent.items pool.free };
}

impl Pool {
    /// How many numbers are free.
    pub(crate) fn free(&self) -> u32
        ensures { result ≡ free_count self.now }
    {
        self.free
    }

    /// The numbers from `first` to below `end`: those listed are taken, and the others free.
    pub(crate) fn new(alloc: Global, first: u32, end: u32, taken: &[u32]) -> Result<Self, NoMemory>
        ensures ok { IfOk result (λ pool. (number : ℕ)
            → status_of pool number ≡ first_status first end taken.now number) }
    {
        let count = end.saturating_sub(first);
        let mut pool = Pool {
            first,
            statuses: vec![in alloc; Status::Free; count as usize]?,
            spent: vec![in alloc; false; count as usize / GROUP + 1]?,
            free: count,
        };
        pool.change_all(taken, Change::Become(Status::Taken));
        Ok(pool)
    }

    /// An empty list with room for so many numbers.
    pub(crate) fn room_for(&self, count: u32) -> Result<RoomyList<u32>, NoMemory>
        ensures empty { IfOk result (λ list. list.items ≡ []) }
        ensures room { IfOk result (λ list. count ≤ list.spare) }
    {
        let mut list = RoomyList::new(*self.statuses.allocator());
        list.reserve(count)?;
        Ok(list)
    }

    /// Grants the least free numbers, and lists them in ascending order. It takes no memory.
    pub(crate) fn grant(&mut self, count: u32, numbers: &mut RoomyList<u32>)
        requires enough { count ≤ free_count self.old }
        requires empty { numbers.old.items ≡ [] }
        requires room { count ≤ numbers.old.spare }
        ensures least { numbers.new.items ≡ take count (free_numbers self.old) }
        ensures grants { Grants self.old count numbers.new.items self.new }
    {
        let mut from = 0;
        for _ in 0..count {
            match self.grant_next(from) {
                Some(place) => {
                    numbers.push(self.number_at(place));
                    from = place + 1;
                }
                None => unreachable!(),
            }
        }
    }

    /// Changes the status of each listed number of the row. It takes no memory.
    pub(crate) fn change_all(&mut self, numbers: &[u32], change: Change)
        ensures { Changes (changed change) numbers.now self.old self.new }
    {
        for number in numbers {
            self.change_one(*number, change);
        }
    }

    /// Ends a grant: its numbers are taken, and of the others those are free that are listed as
    /// freed and were taken. It takes no memory.
    pub(crate) fn end(&mut self, granted: &[u32], freed: &[u32])
        ensures { Ends granted.now freed.now self.old self.new }
    {
        self.change_all(freed, Change::Release);
        self.change_all(granted, Change::Become(Status::Taken));
    }

    // Changes the status of a number, where the row has it.
    fn change_one(&mut self, number: u32, change: Change)
        ensures { Changes (changed change) (number ∷ []) self.old self.new }
    {
        if let Some(place) = self.place_of(number) {
            let status = change.of(self.statuses[place]);
            self.set(place, status);
        }
    }

    // The place of a number that the row has.
    fn place_of(&self, number: u32) -> Option<usize>
        ensures { MatchOption result (status_of self.now number ≡ None) (λ place.
            (place < length self.now.statuses) × (number ≡ self.now.first + place)) }
    {
        let place = number.checked_sub(self.first)? as usize;
        if place < self.statuses.len() {
            Some(place)
        } else {
            None
        }
    }

    // The number at a place.
    fn number_at(&self, place: usize) -> u32
        requires { place < length self.now.statuses }
        ensures { result ≡ self.now.first + place }
    {
        self.first + place as u32
    }

    // Grants the first number that is free, where none is before `from`, and says where it lies.
    fn grant_next(&mut self, from: usize) -> Option<usize>
        requires { NoneFreeBelow self.old.statuses from }
        ensures first { result ≡ position is_free self.old.statuses }
        ensures granted { IfSome result (λ place.
            self.new ≡ record self.old { statuses = slice_set self.old.statuses place Granted }) }
    {
        let place = next_free(&self.statuses, &mut self.spent, from)?;
        self.set(place, Status::Granted);
        Some(place)
    }

    // Gives the number at a place a status.
    fn set(&mut self, place: usize, status: Status)
        requires { place < length self.old.statuses }
        ensures { self.new ≡
            record self.old { statuses = slice_set self.old.statuses place status } }
    {
        self.free = self.free - self.statuses[place].free_units() + status.free_units();
        unmark(&mut self.spent, place / GROUP, status.is_free());
        self.statuses[place] = status;
    }
}

// The first place that is free, where none is before `from`. It marks the groups in which it found
// none.
fn next_free(statuses: &[Status], marks: &mut Vec<bool>, from: usize) -> Option<usize>
    requires groups { length marks.old.items ≡ length statuses.now / GROUP + 1 }
    requires marked { MarksHold statuses.now marks.old.items }
    requires passed { NoneFreeBelow statuses.now from }
    ensures first { result ≡ position is_free statuses.now }
    ensures groups { length marks.new.items ≡ length marks.old.items }
    ensures marked { MarksHold statuses.now marks.new.items }
{
    for group in from / GROUP..marks.len() {
        if !marks[group] {
            if let Some(place) = free_in(statuses, group) {
                return Some(place);
            }
            marks[group] = true;
        }
    }
    None
}

// Takes the mark off a group in which a number gets free.
fn unmark(marks: &mut Vec<bool>, group: usize, frees: bool)
    requires { group < length marks.old.items }
    ensures groups { length marks.new.items ≡ length marks.old.items }
    ensures unmarked { (other : ℕ) → slice_index_or marks.new.items other false ≡ true
        → (slice_index_or marks.old.items other false ≡ true) × (other ≡ group → frees ≡ false) }
{
    if frees {
        marks[group] = false;
    }
}

// The first place of a group that is free.
fn free_in(statuses: &[Status], group: usize) -> Option<usize>
    requires { GROUP * group ≤ length statuses.now }
    ensures some { IfSome result (λ place. (place / GROUP ≡ group)
        × (slice_index_or statuses.now place Taken ≡ Free)) }
    ensures first { IfSome result (λ place. (other : ℕ) → other / GROUP ≡ group → other < place
        → is_free (slice_index_or statuses.now other Taken) ≡ false) }
    ensures none { IfNone result ((other : ℕ) → other / GROUP ≡ group
        → is_free (slice_index_or statuses.now other Taken) ≡ false) }
{
    let start = GROUP * group;
    for place in start..statuses.len().min(start + GROUP) {
        if statuses[place].is_free() {
            return Some(place);
        }
    }
    None
}
