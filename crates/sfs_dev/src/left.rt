// What a disk in memory leaves after a crash, by draws.
//
// The calls after the last sync that counts are undone first: what they replaced is put back, the
// newest call first. Then the writes among them that were made by the moment of the crash reach the
// disk again, the first one first, each with its old bytes, its new bytes or the first half of them.
ghost use Rattle.std.specs.Prelude.{◌≡◌, ◌+◌, ◌≤◌, ◌<◌, ◌^◌, IfOk, min, reverse, length, true, take, drop, replicate};
ghost use Rattle.sfs_dev.specs.Log.{acts_of, fits};
ghost use Rattle.sfs_dev.specs.Ranges.{part, put};
ghost use Rattle.sfs_dev.specs.Left.{Past, Drawn, past_of, undone, pending_count, next_draw, torn_by, draw_writes, draw_write};

use crate::{Act, Call};

// What stands in a range behind the half of a write that came to the disk.
const SPOILT: u8 = 165;

// How many of these calls come after the last sync among them.
pub(crate) fn pending(calls: &[Call]) -> usize
    ensures count { result ≡ pending_count (reverse calls.now) }
    ensures within { result ≤ length calls.now }
{
    calls
        .iter()
        .rev()
        .take_while(|call| !matches!(call.act, Act::Sync))
        .count()
}

// Undoes these calls, where their writes replaced the last of the bytes `replaced`. Answers how many
// bytes the calls before them replaced.
pub(crate) fn undo(calls: &[Call], replaced: &[u8], bytes: &mut Vec<u8>) -> usize
    requires { fits (length bytes.old.items) (acts_of (reverse calls.now)) (length replaced.now) ≡ true }
    ensures count { result ≡ length (undone (acts_of (reverse calls.now)) (past_of bytes.old.items replaced.now)).replaced }
    ensures content { bytes.new.items ≡ (undone (acts_of (reverse calls.now)) (past_of bytes.old.items replaced.now)).content }
{
    let mut rest = calls;
    let mut kept = replaced;
    while let Some((call, earlier)) = rest.split_last() {
        if let Act::Write { at, count } = call.act {
            let (before, old) = kept.split_at(kept.len() - count as usize);
            put_at(bytes, at as usize, old);
            kept = before;
        }
        rest = earlier;
    }
    kept.len()
}

// Puts these bytes in the place of those from `at` on.
fn put_at(bytes: &mut Vec<u8>, at: usize, from: &[u8])
    requires { at + length from.now ≤ length bytes.old.items }
    ensures { bytes.new.items ≡ put at from.now bytes.old.items }
{
    bytes[at..at + from.len()].copy_from_slice(from);
}

// Puts so many bytes 165 in the place of those from `at` on.
fn spoil(bytes: &mut Vec<u8>, at: usize, count: usize)
    requires { at + count ≤ length bytes.old.items }
    ensures { bytes.new.items ≡ put at (replicate count SPOILT) bytes.old.items }
{
    bytes[at..at + count].fill(SPOILT);
}

// Draws for the writes of these calls what reaches the disk, from a number on; `written` has their
// bytes, one after another.
pub(crate) fn draw(calls: &[Call], written: &[u8], bytes: &mut Vec<u8>, pick: u32)
    requires { fits (length bytes.old.items) (acts_of calls.now) (length written.now) ≡ true }
    ensures { bytes.new.items ≡ (draw_writes (acts_of calls.now) written.now (record { number = pick; image = bytes.old.items })).image }
{
    let mut number = pick;
    let mut rest = written;
    for call in calls {
        if let Act::Write { at, count } = call.act {
            let (new, later) = rest.split_at(count as usize);
            number = next_number(number);
            tear(bytes, at as usize, new, number);
            rest = later;
        }
    }
}

// The number that is drawn after this one.
fn next_number(number: u32) -> u32
    ensures { result ≡ next_draw number }
{
    number.wrapping_mul(1_664_525).wrapping_add(1_013_904_223)
}

// Puts what a crash leaves of these bytes, by a drawn number: nothing, all of them, or their first
// half and then bytes 165.
fn tear(bytes: &mut Vec<u8>, at: usize, new: &[u8], number: u32)
    requires { at + length new.now ≤ length bytes.old.items }
    ensures torn { bytes.new.items ≡ put at (torn_by number (part at (length new.now) bytes.old.items) new.now) bytes.old.items }
    ensures len { length bytes.new.items ≡ length bytes.old.items }
{
    let half = new.len() / 2;
    match number / 65_536 % 3 {
        0 => {}
        1 => put_at(bytes, at, new),
        _ => {
            put_at(bytes, at, &new[..half]);
            spoil(bytes, at + half, new.len() - half);
        }
    }
}
