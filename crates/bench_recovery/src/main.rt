//! How many device calls and how much time the recovery of a disk takes whose journal slots are all open: 16 cores of 8 slots, 2,048
//! inodes and 20 records a slot. `bench_recovery measure FILE` measures it on a disk in memory and on that file, which is written over;
//! without the words the program says so. It is in no test.
#![tactic(auto)]

mod filled;

use dev_file::FileDisk;
use filled::{LAYOUT, fill};
use recovery::recover;
use sfs_dev::{Act, Disk, Memory};
use std::alloc::Global;
use std::fs::OpenOptions;
use std::rt::Clock;
use std::time::Instant;
use std::{env, io};

fn main(rt: HostRuntime) -> io::Result<()> {
    let alloc = rt.alloc();
    let mut words = Vec::new(alloc);
    if let Ok(args) = env::args(&rt) {
        if let Ok(all) = args.collect::<Vec<String>>(alloc) {
            words = all;
        }
    }
    let Some(path) = file_asked(&words) else {
        println!(rt;
            "bench_recovery measure FILE: device calls and time of a recovery with all slots open"
        )?;
        return Ok(());
    };
    let Ok(mut memory) = Memory::new(alloc, LAYOUT.blocks) else {
        println!(rt; "no memory")?;
        return Ok(());
    };
    println!(rt; "in memory")?;
    measure(&rt, alloc, &mut memory)?;
    print_acts(&rt, &memory)?;
    let file = OpenOptions::new()
        .read(true)
        .write(true)
        .create(true)
        .open(&rt, path.as_str())?;
    println!(rt; "on a file")?;
    measure(&rt, alloc, &mut FileDisk::new(file))
}

// The file of the words `measure FILE`.
fn file_asked(words: &[String]) -> Option<&String> {
    match words {
        [_, word, file] => {
            if word.as_str() == "measure" {
                Some(file)
            } else {
                None
            }
        }
        _ => None,
    }
}

// Fills a disk, recovers it, and says in how many device calls and in what time.
fn measure<R: Clock + Print, D: Disk>(rt: &R, alloc: Global, disk: &mut D) -> io::Result<()> {
    if fill(alloc, disk).is_err() {
        return println!(rt; "  the disk was not filled");
    }
    let before = disk.now();
    let start = Instant::now(rt)?;
    let recovered = recover(alloc, disk);
    let passed = start.elapsed(rt)?.as_micros();
    let calls = disk.now().saturating_sub(before);
    match recovered {
        Ok(report) => println!(rt;
            "  {} slots closed, in {calls} device calls and {passed} us",
            report.closed
        ),
        Err(fault) => println!(rt; "  refused: {fault:?}"),
    }
}

// Says how many of a disk's calls were reads, writes and syncs, those that filled it among them.
fn print_acts<R: Print>(rt: &R, disk: &Memory) -> io::Result<()> {
    let mut reads = 0u64;
    let mut writes = 0u64;
    let mut syncs = 0u64;
    for call in disk.calls() {
        let count = match call.act {
            Act::Read { .. } => &mut reads,
            Act::Write { .. } => &mut writes,
            Act::Sync => &mut syncs,
        };
        *count = count.saturating_add(1);
    }
    println!(rt; "  with its filling: {reads} reads, {writes} writes, {syncs} syncs")
}
