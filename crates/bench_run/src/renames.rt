// Fsyncs of a directory in which one row got another name, on a disk in memory.
use crate::runs::{left_by, made, measured};
use sfs_base::{Name, NameFault, NoMemory, bucket_of};
use sfs_dev::Memory;
use std::alloc::Global;
use std::io;
use std::rt::Clock;
use std::sync::Wait;
use std::thread::Threads;
use std::time::Instant;

/// How many renames a run makes.
const RENAMES: u32 = 1000;

/// How often a figure is taken.
const TIMES: usize = 5;

/// What a rename and its fsync took in a directory, in nanoseconds: medians.
#[derive(Clone, Copy)]
pub struct Medians {
    /// A rename with an fsync of its directory, less one without.
    pub fsync: u128,
    /// How many device calls an fsync made.
    pub device_calls: u64,
    /// Whether all runs came to their ends and all fsyncs were answered Ok.
    pub done: bool,
}

/// What an fsync takes after one rename in a directory of so many rows, as the median of five: each time a run of
/// renames, each with an fsync of the directory, less a run of the same renames without, by the number of fsyncs.
/// The row stands in the middle of the directory, and has two names by turns. Outer `Err` is the clock's.
pub fn fsyncs_of<R: Threads + Wait + Sync + Clock>(
    rt: &R,
    alloc: Global,
    rows: u32,
) -> io::Result<Option<Medians>> {
    let Ok(begun) = begun(rt, alloc, rows) else {
        return Ok(None);
    };
    let mut taken = [0u128; TIMES];
    let mut device_calls = 0;
    let mut done = true;
    for time in 0..TIMES {
        let Some(plain) = run_of(rt, alloc, &begun, rows, false)? else {
            return Ok(None);
        };
        let Some(flushed) = run_of(rt, alloc, &begun, rows, true)? else {
            return Ok(None);
        };
        taken[time] = flushed.nanos.saturating_sub(plain.nanos) / u128::from(RENAMES);
        device_calls = flushed.device_calls.saturating_sub(plain.device_calls) / u64::from(RENAMES);
        done = done && plain.done && flushed.done;
    }
    taken.sort_unstable();
    Ok(Some(Medians {
        fsync: taken[TIMES / 2],
        device_calls,
        done,
    }))
}

// What a run took.
#[derive(Clone, Copy)]
struct Taken {
    nanos: u128,
    device_calls: u64,
    done: bool,
}

// Runs the renames on a copy of a disk, with an fsync after each or without.
fn run_of<R: Threads + Wait + Sync + Clock>(
    rt: &R,
    alloc: Global,
    begun: &Memory,
    rows: u32,
    is_flushed: bool,
) -> io::Result<Option<Taken>> {
    let Ok(disk) = begun.left(alloc, u64::MAX, 0) else {
        return Ok(None);
    };
    let Ok(script) = renames(alloc, rows, is_flushed) else {
        return Ok(None);
    };
    let start = Instant::now(rt)?;
    let found = measured(rt, alloc, &["run", "65536"], script, disk);
    let nanos = start.elapsed(rt)?.as_nanos();
    let Ok(figures) = found else {
        return Ok(None);
    };
    Ok(Some(Taken {
        nanos,
        device_calls: figures.device_calls,
        done: figures.done && figures.acknowledged == figures.fsyncs,
    }))
}

// A disk with a file, and a directory in which it has so many names.
fn begun<R: Threads + Wait + Sync>(rt: &R, alloc: Global, rows: u32) -> Result<Memory, NoMemory> {
    let disk = made(rt, alloc, 8192, &["mkfs", "8192", "1024", "1"])?;
    let mut script = String::from_str(alloc, "0 create /f\n0 mkdir /d\n")?;
    for row in 0..rows {
        let name = name_of(alloc, row, 0)?;
        script.push_str(format!(in alloc; "0 link /f /d/{name}\n")?.as_str())?;
    }
    script.push_str("0 fsync /d\n")?;
    left_by(rt, alloc, script, disk)
}

// The middle row gets its two names by turns, with an fsync after each rename or without.
fn renames(alloc: Global, rows: u32, is_flushed: bool) -> Result<String, NoMemory> {
    let first = name_of(alloc, rows / 2, 0)?;
    let other = name_of(alloc, rows / 2, 8)?;
    let mut script = String::new(alloc);
    for n in 0..RENAMES {
        let line = if n % 2 == 0 {
            format!(in alloc; "0 rename /d/{first} /d/{other}\n")?
        } else {
            format!(in alloc; "0 rename /d/{other} /d/{first}\n")?
        };
        script.push_str(line.as_str())?;
        if is_flushed {
            script.push_str("0 fsync /d\n")?;
        }
    }
    Ok(script)
}

// The name of a row: its number, and a letter by which as many names lie in each bucket of the directory. Eight
// letters on there is another name in the same bucket.
fn name_of(alloc: Global, row: u32, further: u32) -> Result<String, NoMemory> {
    let plain = format!(in alloc; "{row}a")?;
    let bucket = match Name::new(alloc, plain.as_str().as_bytes()) {
        Ok(name) => u32::from(bucket_of(&name)),
        Err(NameFault::NoMemory) => return Err(NoMemory),
        Err(_) => 0,
    };
    let letter = LETTERS[((row.wrapping_add(8).wrapping_sub(bucket)) % 8 + further % 9) as usize];
    Ok(format!(in alloc; "{row}{letter}")?)
}

/// The letters of names.
const LETTERS: [char; 16] = [
    'a', 'b', 'c', 'd', 'e', 'f', 'g', 'h', 'i', 'j', 'k', 'l', 'm', 'n', 'o', 'p',
];
