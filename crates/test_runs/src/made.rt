// Runs of made scripts.
use crate::bench::{SMALL, Size, done, image};
use crate::helpers::{holds, same, same_list};
use scalefs_run::Status;
use std::alloc::Global;
use std::process::Abort;
use std::sync::Wait;
use std::thread::Threads;

// An image of four cores with room for many files.
const LARGE: Size = (16_384, 2048, 4);

#[test]
fn a_made_script_writes_its_line(rt: HostRuntime) {
    let alloc = rt.alloc();
    let ran = done(
        &rt,
        alloc,
        &["load", "1", "4", "1"],
        image(&rt, alloc, SMALL),
    );
    same(&rt, &ran.status, &Status::Done);
    same_list(
        &rt,
        ran.text.as_slice(),
        b"load 1 4 1: 35 calls, 5 rows, 12 bytes\n".as_slice(),
    );
    same(&rt, &ran.history.len(), &35);
}

#[test]
fn more_workers_than_cores_are_refused(rt: HostRuntime) {
    let alloc = rt.alloc();
    let ran = done(
        &rt,
        alloc,
        &["load", "1", "4", "3"],
        image(&rt, alloc, SMALL),
    );
    same(
        &rt,
        &ran.status,
        &Status::TooManyWorkers { asked: 2, have: 2 },
    );
    holds(&rt, ran.text.is_empty());
    holds(&rt, ran.history.is_empty());
}

// The line of a large load on a fresh image.
fn large_line<R: Threads + Wait + Sync + Abort>(rt: &R, alloc: Global) -> Vec<u8> {
    let ran = done(
        rt,
        alloc,
        &["load", "5", "100", "4"],
        image(rt, alloc, LARGE),
    );
    same(rt, &ran.status, &Status::Done);
    ran.text
}

#[test]
fn a_load_on_a_fresh_image_writes_the_same_line_again(rt: HostRuntime) {
    let first = large_line(&rt, rt.alloc());
    let second = large_line(&rt, rt.alloc());
    holds(&rt, first.starts_with(b"load 5 100 4: ".as_slice()));
    same_list(&rt, second.as_slice(), first.as_slice());
}
