//! How many messages a second a mail spool takes whose workers each deliver their own, on a disk in memory and on an image file, with one and with two
//! journal slots a core. `bench_spool spool WORKERS MESSAGES shared|private FILE` measures it, and beside it what a bare write of 4,096 bytes with its sync
//! takes on the same disks; FILE is written over. Without the words the program says so. It is in no test.
#![tactic(auto)]

mod asked;
mod bare;
mod scripts;
mod spools;

use asked::{Asked, spool_asked};
use bare::{BARE_WRITES, bare_writes};
use dev_file::FileDisk;
use scripts::spool_script;
use sfs_dev::{Act, Disk, Memory};
use spools::{IMAGE_BLOCKS, Ran, deliver};
use std::alloc::Global;
use std::fs::{File, Files, OpenOptions};
use std::rt::Clock;
use std::sync::Wait;
use std::thread::Threads;
use std::time::Instant;
use std::{env, io};

fn main(rt: HostRuntime) -> io::Result<()> {
    let alloc = rt.alloc();
    let mut words = Vec::new(alloc);
    if let Ok(args) = env::args(&rt) {
        if let Ok(all) = args.collect::<Vec<String>>(alloc) {
            words = all;
        }
    }
    let Some(asked) = spool_asked(&words) else {
        return println!(rt;
            "bench_spool spool WORKERS MESSAGES shared|private FILE: messages a second, in memory and on that file; 1 to 16 workers, 1 to 1900 messages in all"
        );
    };
    for slots in [1, 2] {
        println!(rt; "{slots} slots a core")?;
        let Ok(memory) = Memory::new(alloc, IMAGE_BLOCKS) else {
            return println!(rt; "no memory");
        };
        if let Some(memory) = measure(&rt, alloc, &asked, slots, memory, "in memory")? {
            print_acts(&rt, &asked, &memory)?;
        }
        let file = opened(&rt, asked.file)?;
        measure(
            &rt,
            alloc,
            &asked,
            slots,
            FileDisk::new(file),
            "on the file",
        )?;
    }
    Ok(())
}

// The file, empty.
fn opened<R: Files<File = File>>(rt: &R, path: &String) -> io::Result<File> {
    OpenOptions::new()
        .read(true)
        .write(true)
        .create(true)
        .truncate(true)
        .open(rt, path.as_str())
}

// Runs the spool on a disk and says how long it took, beside bare writes on the same disk. Answers the disk, where all was delivered.
fn measure<R: Threads + Wait + Sync + Clock + Print, D: Disk + Drop + Sync>(
    rt: &R,
    alloc: Global,
    asked: &Asked,
    slots: u32,
    disk: D,
    name: &str,
) -> io::Result<Option<D>> {
    let Ok(script) = spool_script(alloc, asked) else {
        println!(rt; "  {name}: no memory")?;
        return Ok(None);
    };
    let Some(ran) = deliver(rt, alloc, asked, slots, &script, disk)? else {
        println!(rt; "  {name}: no memory, or no image")?;
        return Ok(None);
    };
    print_ran(rt, asked, &ran, name)?;
    let mut disk = ran.disk;
    let start = Instant::now(rt)?;
    let bare = bare_writes(&mut disk);
    let passed = start.elapsed(rt)?.as_micros();
    println!(rt;
        "  {name}, {bare} of {BARE_WRITES} bare writes of 4096 bytes, each with its sync: {} a second",
        a_second(u64::from(bare), passed)
    )?;
    Ok(Some(disk))
}

// Says what a run took.
fn print_ran<R: Print, D: Disk>(rt: &R, asked: &Asked, ran: &Ran<D>, name: &str) -> io::Result<()> {
    println!(rt;
        "  {name}: {} messages in {} us, {} messages a second; {} calls in all, {} of {} fsyncs acknowledged; {} device calls in 100 messages",
        asked.messages(),
        ran.micros,
        a_second(asked.messages(), ran.micros),
        ran.calls,
        ran.acknowledged,
        ran.fsyncs,
        in_hundred(ran.disk.now(), asked.messages())
    )
}

// Says how many of a disk's calls were writes and syncs, the bare ones and the making of the image among them.
fn print_acts<R: Print>(rt: &R, asked: &Asked, disk: &Memory) -> io::Result<()> {
    let mut writes = 0u64;
    let mut syncs = 0u64;
    for call in disk.calls() {
        match call.act {
            Act::Read { .. } => {}
            Act::Write { .. } => writes = writes.saturating_add(1),
            Act::Sync => syncs = syncs.saturating_add(1),
        }
    }
    let bare = u64::from(BARE_WRITES);
    println!(rt;
        "  in memory, without the bare ones: {} writes and {} syncs in 100 messages",
        in_hundred(writes.saturating_sub(bare), asked.messages()),
        in_hundred(syncs.saturating_sub(bare), asked.messages())
    )
}

// How many a second, where so many took so many microseconds.
fn a_second(count: u64, micros: u128) -> u128 {
    u128::from(count).saturating_mul(1_000_000) / micros.max(1)
}

// How many in a hundred messages, where so many messages took so many.
fn in_hundred(count: u64, messages: u64) -> u64 {
    count.saturating_mul(100) / messages.max(1)
}
