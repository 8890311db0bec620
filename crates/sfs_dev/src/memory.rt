ghost use Rattle.std.specs.Prelude.{◌≡◌, ◌*◌, ◌≤◌, [], IsOk, IfOk, IfErr, OnOk, replicate, Some};
ghost use Rattle.std.specs.Prelude.{length, ◌+◌, ◌-◌, ◌^◌, ◌<◌, ◌++◌, ◌∷◌, min, reverse, true, is_ok, if◌then◌else◌, vec_len, vec_capacity};
ghost use Rattle.sfs_dev.specs.Log.{newest_moment, acts_of, fits};
ghost use Rattle.sfs_dev.specs.Ranges.{put};

use crate::left::{draw, pending, undo};
use crate::{Act, Call, Disk};
use sfs_base::{Failed, NoMemory};
use std::alloc::Global;

// The most blocks that a disk in memory has: 1 GiB.
const MOST_BLOCKS: u32 = 262_144;

/// A disk in memory. It keeps a list of its device calls, with the bytes that each write wrote and
/// those that it replaced, and tells everything. A call fails only where that list has no room left
/// and finds no memory; such a call changes nothing, stands in no list, and counts as a fault.
#[derive(Drop)]
pub struct Memory {
    blocks: u32,
    bytes: Vec<u8>,
    calls: Vec<Call>,
    // the bytes of all writes, one after another
    written: Vec<u8>,
    // what stood in their place before, in the same order
    replaced: Vec<u8>,
    moment: u64,
    faults: u64,
    ghost small: { blocks ≤ 262144 },
    ghost whole: { length bytes.items ≡ 4096 * blocks },
    ghost moments_bounded: { newest_moment (reverse calls.items) ≤ moment },
    ghost logged: { fits (4096 * blocks) (acts_of (reverse calls.items)) (length replaced.items) ≡ true },
    ghost written_as_replaced: { length written.items ≡ length replaced.items },
    ghost moment_fits: { moment < 2 ^ 64 },
    ghost faults_fit: { faults < 2 ^ 64 },
}

impl Memory {
    ghost use Rattle.sfs_dev.specs.Left.{image_left, IsLeftAfter};
    ghost use Rattle.sfs_dev.specs.Memory.{memory_view, calls_of, written_of, spare_calls, spare_bytes, IsFresh, IsWholeBlocks, SameDisk, FailsAlone};

    /// A disk of so many blocks, at most 262,144, of zeros.
    pub fn new(alloc: Global, blocks: u32) -> Result<Memory, NoMemory>
        requires { blocks ≤ 262144 }
        ensures ok { IfOk result (λ memory. IsFresh memory (replicate (4096 * blocks) 0)) }
    {
        let bytes = vec![in alloc; 0; 4096 * blocks as usize]?;
        Ok(Memory::fresh(alloc, blocks, bytes))
    }

    /// A disk that holds these bytes. They come back where they are no whole number of blocks or
    /// more than 262,144 of them. It takes no memory.
    pub fn of(alloc: Global, bytes: Vec<u8>) -> Result<Memory, Vec<u8>>
        ensures ok { IfOk result (λ memory. IsFresh memory bytes.items × IsWholeBlocks bytes.items) }
        ensures err { IfErr result (λ back. (back ≡ bytes) × ¬ IsWholeBlocks bytes.items) }
    {
        let blocks = bytes.len() / 4096;
        if bytes.len() % 4096 != 0 || blocks > MOST_BLOCKS as usize {
            return Err(bytes);
        }
        Ok(Memory::fresh(alloc, blocks as u32, bytes))
    }

    fn fresh(alloc: Global, blocks: u32, bytes: Vec<u8>) -> Memory
        requires small { blocks ≤ 262144 }
        requires whole { length bytes.items ≡ 4096 * blocks }
        ensures fresh { IsFresh result bytes.items }
    {
        Memory {
            blocks,
            bytes,
            calls: Vec::new(alloc),
            written: Vec::new(alloc),
            replaced: Vec::new(alloc),
            moment: 0,
            faults: 0,
        }
    }

    /// Makes room in the list for so many device calls and so many bytes that they write. A call
    /// that fits in this room does not fail; it lowers it by at most one call and the bytes that it
    /// writes.
    pub fn reserve(&mut self, calls: u64, bytes: u64) -> Result<(), NoMemory>
        ensures calls { OnOk result (calls ≤ spare_calls self.new) }
        ensures bytes { OnOk result (bytes ≤ spare_bytes self.new) }
        ensures keeps_calls { spare_calls self.old ≤ spare_calls self.new }
        ensures keeps_bytes { spare_bytes self.old ≤ spare_bytes self.new }
        ensures same { SameDisk self.old self.new }
    {
        self.calls.reserve(calls as usize)?;
        self.written.reserve(bytes as usize)?;
        self.replaced.reserve(bytes as usize)?;
        Ok(())
    }

    /// A disk that holds what a crash may leave once the first `calls` calls of the list were made,
    /// or all of them where there are fewer, with nothing pending. What was written since the last
    /// sync among them is drawn: for each write, the first one first, x becomes
    /// (1664525 * x + 1013904223) mod 2^32, from x = `pick` on, and by floor(x / 65536) mod 3 its range
    /// has 0 its old bytes, 1 its new bytes, 2 the first half of them, rounded down, and then bytes 165.
    pub fn left(&self, alloc: Global, calls: u64, pick: u32) -> Result<Memory, NoMemory>
        ensures drawn { IfOk result (λ left. IsFresh left (image_left calls pick self.now)) }
        ensures left { IsLeftAfter calls self.now (image_left calls pick self.now) }
    {
        let made = self.calls.len().min(calls as usize);
        let (first, _) = self.calls.split_at(made);
        let settled = made - pending(first);
        let (_, waiting) = first.split_at(settled);
        let (_, undone) = self.calls.split_at(settled);
        let mut bytes = Vec::from_slice(alloc, &self.bytes)?;
        let (_, written) = self
            .written
            .split_at(undo(undone, &self.replaced, &mut bytes));
        draw(waiting, written, &mut bytes, pick);
        Ok(Memory::fresh(alloc, self.blocks, bytes))
    }

    /// A device call that fails, for a disk over this one: it is counted, and so is the fault. What a
    /// read gives, what a crash may leave at each moment, and the list stay. It takes no memory.
    pub fn fail(&mut self) -> Failed
        ensures call { FailsAlone self.old self.new }
        ensures calls { spare_calls self.new ≡ spare_calls self.old }
        ensures bytes { spare_bytes self.new ≡ spare_bytes self.old }
    {
        raise(&mut self.moment);
        raise(&mut self.faults);
        Failed
    }

    /// What a read gives.
    pub fn bytes(&self) -> &[u8]
        ensures bytes { (memory_view self.now).content ≡ Some result.now }
    {
        &self.bytes
    }

    /// The device calls so far, the first one first, without those that failed.
    pub fn calls(&self) -> &[Call]
        ensures calls { result.now ≡ calls_of self.now }
    {
        &self.calls
    }

    /// The bytes of all writes of that list, one after another.
    pub fn written(&self) -> &[u8]
        ensures written { result.now ≡ written_of self.now }
    {
        &self.written
    }
}

// Adds one to a count, which stays at the last value of `u64`.
fn raise(count: &mut u64)
    ensures { count.new ≡ min (count.old + 1) (2 ^ 64 - 1) }
{
    *count = count.saturating_add(1);
}

// Adds a write to the list, with what it writes and what it replaces, or nothing at all.
fn keep(
    calls: &mut Vec<Call>,
    written: &mut Vec<u8>,
    replaced: &mut Vec<u8>,
    call: Call,
    new: &[u8],
    old: &[u8],
) -> Result<(), NoMemory>
    ensures calls { calls.new.items ≡ (if is_ok result then calls.old.items ++ call ∷ [] else calls.old.items) }
    ensures written { written.new.items ≡ (if is_ok result then written.old.items ++ new.now else written.old.items) }
    ensures replaced { replaced.new.items ≡ (if is_ok result then replaced.old.items ++ old.now else replaced.old.items) }
    ensures roomy { vec_len calls.old < vec_capacity calls.old
        → vec_len written.old + length new.now ≤ vec_capacity written.old
        → vec_len replaced.old + length old.now ≤ vec_capacity replaced.old
        → IsOk result }
    ensures call_room { vec_capacity calls.old ≤ vec_capacity calls.new }
    ensures written_room { vec_capacity written.old ≤ vec_capacity written.new }
    ensures replaced_room { vec_capacity replaced.old ≤ vec_capacity replaced.new }
{
    calls.reserve(1)?;
    written.reserve(new.len())?;
    replaced.reserve(old.len())?;
    // There is room for each of them now.
    calls.push(call)?;
    written.extend_from_slice(new)?;
    replaced.extend_from_slice(old)?;
    Ok(())
}

// Puts these bytes in the place of those from `at` on.
fn replace(bytes: &mut Vec<u8>, at: usize, from: &[u8])
    requires { at + length from.now ≤ length bytes.old.items }
    ensures put { bytes.new.items ≡ put at from.now bytes.old.items }
{
    bytes[at..at + from.len()].copy_from_slice(from);
}

impl Disk for Memory {
    ghost use Rattle.std.specs.Prelude.{◌≡◌, ◌+◌, ◌*◌, ◌<◌, ◌≤◌, [], length, option_map, IsOk, OnOk, OnErr};
    ghost use Rattle.sfs_dev.specs.Ranges.{put};
    ghost use Rattle.sfs_dev.specs.Disk.{images, Gives, Torn, TornTold, AnyIn, SameImages, OnlyTold, IsDeviceCall};
    ghost use Rattle.sfs_dev.specs.declared.call.Act.TheVariants.{Read, Write, Sync};
    ghost use Rattle.sfs_dev.specs.Memory.{memory_view, IsListedCall};
    ghost use Rattle.sfs_dev.specs.MemoryLaws.{memory_whole, memory_left};

    ghost view = { memory_view };

    ghost whole = { memory_whole };

    ghost read_is_left = { memory_left };

    ghost now_fits = { λ m. m.moment_fits };

    ghost faults_fit = { λ m. m.faults_fit };

    fn len(&self) -> u32 {
        self.blocks
    }

    fn now(&self) -> u64 {
        self.moment
    }

    fn faults(&self) -> u64 {
        self.faults
    }

    fn read_at(&mut self, at: u64, into: &mut [u8]) -> Result<(), Failed>
        requires some { 0 < length into.old }
        requires within { at + length into.old ≤ 4096 * (memory_view self.old).size }

        ensures ok { OnOk result (Gives (memory_view self.old).content at into.new) }
        ensures content { (memory_view self.new).content ≡ (memory_view self.old).content }
        ensures images { SameImages (images (memory_view self.old)) (images (memory_view self.new)) }
        ensures call { IsDeviceCall (memory_view self.old) (memory_view self.new) result }
        ensures listing { IsListedCall (Read at (length into.old)) [] self.old self.new result }
    {
        raise(&mut self.moment);
        let count = into.len() as u64;
        let call = Call {
            moment: self.moment,
            act: Act::Read { at, count },
        };
        if self.calls.push(call).is_err() {
            raise(&mut self.faults);
            return Err(Failed);
        }
        let place = at as usize;
        into.copy_from_slice(&self.bytes[place..place + into.len()]);
        Ok(())
    }

    fn write_at(&mut self, at: u64, from: &[u8]) -> Result<(), Failed>
        requires some { 0 < length from.now }
        requires within { at + length from.now ≤ 4096 * (memory_view self.old).size }

        ensures ok { OnOk result ((memory_view self.new).content ≡ option_map (put at from.now) (memory_view self.old).content) }
        ensures err { OnErr result (TornTold at (length from.now) (memory_view self.old).content (memory_view self.new).content) }
        ensures images { Torn at (length from.now) (images (memory_view self.old)) (images (memory_view self.new)) }
        ensures any { OnOk result (AnyIn at (length from.now) (images (memory_view self.old)) (images (memory_view self.new))) }
        ensures call { IsDeviceCall (memory_view self.old) (memory_view self.new) result }
        ensures listing { IsListedCall (Write at (length from.now)) from.now self.old self.new result }
    {
        raise(&mut self.moment);
        let count = from.len() as u64;
        let call = Call {
            moment: self.moment,
            act: Act::Write { at, count },
        };
        let place = at as usize;
        if let Err(NoMemory) = keep(
            &mut self.calls,
            &mut self.written,
            &mut self.replaced,
            call,
            from,
            &self.bytes[place..place + from.len()],
        ) {
            raise(&mut self.faults);
            return Err(Failed);
        }
        replace(&mut self.bytes, place, from);
        Ok(())
    }

    fn sync(&mut self) -> Result<(), Failed>
        ensures ok { OnOk result (OnlyTold (memory_view self.new).content (images (memory_view self.new))) }
        ensures content { (memory_view self.new).content ≡ (memory_view self.old).content }
        ensures images { OnErr result (SameImages (images (memory_view self.old)) (images (memory_view self.new))) }
        ensures call { IsDeviceCall (memory_view self.old) (memory_view self.new) result }
        ensures listing { IsListedCall Sync [] self.old self.new result }
    {
        raise(&mut self.moment);
        let call = Call {
            moment: self.moment,
            act: Act::Sync,
        };
        if self.calls.push(call).is_err() {
            raise(&mut self.faults);
            return Err(Failed);
        }
        Ok(())
    }
}
