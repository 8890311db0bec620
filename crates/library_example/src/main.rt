//! A program over a mounted volume, and no script: two workers, a thread each, make a directory and a file in it, write the file, flush it and read it back.
//! Then the volume is unmounted, and what recovers of its disk is printed.
#![tactic(auto)]

mod disks;
mod errand;
mod seats;
mod trouble;
mod visit;

use disks::{new_disk, tree_on};
use fmt_super::Layout;
use std::alloc::Global;
use std::io;
use std::sync::Wait;
use std::thread::Threads;
use trouble::Trouble;
use visit::{Left, visit};

// A small disk of two cores, and so of two workers.
const LAYOUT: Layout = Layout {
    blocks: 128,
    inodes: 64,
    cores: 2,
    slots: 1,
};

// How many nodes they may make.
const NODES: u32 = 64;

fn main(rt: HostRuntime) -> io::Result<()> {
    let alloc = rt.alloc();
    match told(&rt, alloc) {
        Ok(text) => print!(rt; "{text}"),
        Err(trouble) => println!(rt; "{}", trouble.as_text()),
    }
}

// Has a new disk visited. Tells what each worker read there, in the order of workers, and which tree recovers of the disk that is left.
fn told<R: Threads + Wait + Sync>(rt: &R, alloc: Global) -> Result<String, Trouble> {
    let Left { disk, read, .. } = visit(rt, alloc, new_disk(alloc, &LAYOUT)?, NODES)?;
    let mut text = String::new(alloc);
    for errand in read {
        text.push_str(errand?.as_str())?;
        text.push_str("\n")?;
    }
    text.push_str(tree_on(alloc, disk)?.as_str())?;
    Ok(text)
}
