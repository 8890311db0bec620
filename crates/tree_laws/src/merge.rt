// Lists of entries that are read in the order of their stamps.
ghost use Rattle.std.specs.Prelude.{◌≡◌, ◌+◌, ◌^◌, ◌<◌, Some, length, IfSome, OnSome};
ghost use Rattle.std.specs.List.{find};
ghost use Rattle.std.specs.Option.{option_copied};
ghost use Rattle.tree_laws.specs.Merged.{entries_in, has_stamp, entry_with, EachOnce};

use crate::Entry;

// How many entries the lists have.
pub(crate) fn count_entries(parts: &[Vec<Entry>]) -> u64
    requires { length (entries_in parts.now) < 2 ^ 64 }
    ensures { result ≡ length (entries_in parts.now) }
{
    let mut count = 0u64;
    for part in parts {
        count += part.len() as u64;
    }
    count
}

// The first entry of a list with this stamp.
fn stamped_in(entries: &[Entry], stamp: u64) -> Option<&Entry>
    ensures { option_copied result ≡ find (has_stamp stamp) entries.now }
{
    for entry in entries {
        if entry.stamp.0 == stamp {
            return Some(entry);
        }
    }
    None
}

// The first entry of the lists with this stamp.
fn stamped(parts: &[Vec<Entry>], stamp: u64) -> Option<&Entry>
    ensures { option_copied result ≡ entry_with (entries_in parts.now) stamp }
{
    for part in parts {
        if let Some(entry) = stamped_in(part, stamp) {
            return Some(entry);
        }
    }
    None
}

// The entry of a list at a place, where it has this stamp.
fn entry_at(parts: &[Vec<Entry>], list: usize, place: usize, stamp: u64) -> Option<&Entry>
    requires { EachOnce (entries_in parts.now) }
    ensures entry { IfSome (option_copied result) (λ entry. entry_with (entries_in parts.now) stamp ≡ Some entry) }
    ensures small { OnSome result (place + 1 < 2 ^ 64) }
{
    let entry = parts.get(list)?.get(place)?;
    if entry.stamp.0 == stamp {
        Some(entry)
    } else {
        None
    }
}

// The entry with this stamp, where it stands at one of the places, which then moves on by one.
fn at_places<'a>(parts: &'a [Vec<Entry>], places: &mut [usize], stamp: u64) -> Option<&'a Entry>
    requires { EachOnce (entries_in parts.now) }
    ensures { IfSome (option_copied result) (λ entry. entry_with (entries_in parts.now) stamp ≡ Some entry) }
{
    for list in 0..parts.len().min(places.len()) {
        if let Some(entry) = entry_at(parts, list, places[list], stamp) {
            places[list] += 1;
            return Some(entry);
        }
    }
    None
}

// The entry with this stamp. The places are where it is looked for first: a cursor over lists that
// ascend by their stamps finds each entry there, and one that comes from another history may not.
pub(crate) fn next_stamped<'a>(
    parts: &'a [Vec<Entry>],
    places: &mut [usize],
    stamp: u64,
) -> Option<&'a Entry>
    requires { EachOnce (entries_in parts.now) }
    ensures { option_copied result ≡ entry_with (entries_in parts.now) stamp }
{
    match at_places(parts, places, stamp) {
        Some(entry) => Some(entry),
        None => stamped(parts, stamp),
    }
}
