//! How many device calls and how much time it takes to certify an image of 1 GiB with 16,384 inodes and
//! to accept its certificate, beside recovering it, and to do what the commands `verify` and `show` do.
//! `bench_verify measure` measures it on a disk in memory, with files of one block and with such of
//! sixteen; without the word the program says so. It is in no test.
#![tactic(auto)]

mod filled;
mod shown;

use filled::{FileSize, LAYOUT, fill};
use image_check::{Certificate, accept, certify};
use recovery::recover;
use sfs_dev::{Disk, Memory};
use shown::{measure_show, measure_verify};
use std::alloc::Global;
use std::rt::Clock;
use std::time::Instant;
use std::{env, io};

fn main(rt: HostRuntime) -> io::Result<()> {
    let alloc = rt.alloc();
    let mut words = Vec::new(alloc);
    if let Ok(args) = env::args(&rt) {
        if let Ok(all) = args.collect::<Vec<String>>(alloc) {
            words = all;
        }
    }
    if !is_asked(&words) {
        return println!(rt;
            "bench_verify measure: device calls and time of a certificate, made and accepted"
        );
    }
    measure_all(&rt, alloc, FileSize::OneBlock)?;
    measure_all(&rt, alloc, FileSize::SixteenBlocks)
}

// Whether the words are `measure`.
fn is_asked(words: &[String]) -> bool {
    match words {
        [_, word] => word.as_str() == "measure",
        _ => false,
    }
}

// Measures all three times on an image whose files have this size.
fn measure_all<R: Clock + Print>(rt: &R, alloc: Global, size: FileSize) -> io::Result<()> {
    println!(rt; "blocks of a file: {}", size.blocks())?;
    let Ok(mut disk) = Memory::new(alloc, LAYOUT.blocks) else {
        return println!(rt; "no memory");
    };
    if fill(alloc, &mut disk, size).is_err() {
        return println!(rt; "the disk was not filled");
    }
    for _ in 0..3u8 {
        measure(rt, alloc, &mut disk)?;
        measure_verify(rt, alloc, &mut disk)?;
        measure_show(rt, alloc, &mut disk)?;
    }
    Ok(())
}

// Recovers a disk, certifies it and accepts that, and says in how many device calls and in what time.
fn measure<R: Clock + Print, D: Disk>(rt: &R, alloc: Global, disk: &mut D) -> io::Result<()> {
    let before = disk.now();
    let start = Instant::now(rt)?;
    let recovered = recover(alloc, disk).is_ok();
    let passed = start.elapsed(rt)?.as_micros();
    let calls = disk.now().saturating_sub(before);
    println!(rt; "recovered {recovered}, in {calls} device calls and {passed} us")?;
    let before = disk.now();
    let start = Instant::now(rt)?;
    let certified = certify(alloc, disk);
    let passed = start.elapsed(rt)?.as_micros();
    let calls = disk.now().saturating_sub(before);
    match certified {
        Ok(cert) => {
            println!(rt;
                "certified, {} entries and {} blocks, in {calls} device calls and {passed} us",
                cert.holders.as_slice().len(),
                cert.owners.as_slice().len()
            )?;
            measure_accepting(rt, alloc, disk, &cert)
        }
        Err(_) => println!(rt; "not certified"),
    }
}

// Accepts a certificate, and says in how many device calls and in what time.
fn measure_accepting<R: Clock + Print, D: Disk>(
    rt: &R,
    alloc: Global,
    disk: &mut D,
    cert: &Certificate,
) -> io::Result<()> {
    let before = disk.now();
    let start = Instant::now(rt)?;
    let accepted = accept(alloc, disk, cert).unwrap_or(false);
    let passed = start.elapsed(rt)?.as_micros();
    let calls = disk.now().saturating_sub(before);
    println!(rt; "accepted {accepted}, in {calls} device calls and {passed} us")
}
