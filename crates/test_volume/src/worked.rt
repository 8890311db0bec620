// Scripts whose outcome is the same in each schedule.
ghost use Rattle.std.specs.Prelude.{◌≤◌};

use crate::helpers::{got, holds, same, same_list, some};
use crate::runs::{Ran, image, phases_in, run};
use crate::trees::{assert_recovers, bytes_at, recovered};
use dev_fake::FailAt;
use fmt_super::Layout;
use script::text;
use sfs_base::NoGate;
use sfs_dev::{Act, Disk, Memory};
use std::alloc::Global;
use std::process::Abort;
use std::sync::Wait;
use std::thread::Threads;
use tree_laws::{History, Reply};

const PLAIN: Layout = Layout {
    blocks: 128,
    inodes: 64,
    cores: 2,
    slots: 1,
};

// One block for data.
const ONE_BLOCK: Layout = Layout {
    blocks: 8,
    inodes: 16,
    cores: 1,
    slots: 1,
};

// Runs a script on an empty disk with this layout.
fn run_on_image<R: Threads + Wait + Sync + Abort>(
    rt: &R,
    alloc: Global,
    layout: Layout,
    lines: &str,
) -> Ran<Memory> {
    let script = phases_in(rt, alloc, lines.as_bytes());
    let disk = image(rt, alloc, layout);
    run(rt, alloc, disk, 4096, &script, &NoGate)
}

// Whether each fsync of a history is answered Ok.
fn all_flushed(history: &History) -> bool {
    let mut cursor = history.first();
    for _ in 0..history.len() {
        if let Some(entry) = history.next(&mut cursor)
            && !matches!(&entry.reply, Reply::Ok | Reply::Node { .. })
        {
            return false;
        }
    }
    true
}

// Scripts of which no call is refused, with the text of the tree that their disk recovers to.
static FLUSHED: [(&str, &str); 8] = [
    // A rename is whole: it is gone from one directory and in the other.
    (
        "0 mkdir /p\n0 mkdir /q\n0 create /p/f\n0 fsync /\n0 fsync /p\n0 rename /p/f /q/g\n0 fsync /p\n",
        "dir 4 2 /\ndir 2 0 /p\ndir 2 1 /q\nfile 1 0 0 /q/g\n",
    ),
    // The same, where it is the directory into which it moved that is flushed.
    (
        "0 mkdir /p\n0 mkdir /q\n0 create /p/f\n0 fsync /\n0 fsync /p\n0 rename /p/f /q/g\n0 fsync /q\n",
        "dir 4 2 /\ndir 2 0 /p\ndir 2 1 /q\nfile 1 0 0 /q/g\n",
    ),
    // A rename that no fsync concerns is not there.
    (
        "0 mkdir /p\n0 mkdir /q\n0 create /p/f\n0 fsync /\n0 fsync /p\n0 rename /p/f /q/g\n0 fsync /\n",
        "dir 4 2 /\ndir 2 1 /p\nfile 1 0 0 /p/f\ndir 2 0 /q\n",
    ),
    // Bytes that were flushed outlive the name by which they were.
    (
        "0 mkdir /p\n0 mkdir /q\n0 create /p/f\n0 write /p/f 0 6869\n0 fsync /p/f\n0 link /p/f /q/f\n0 unlink /p/f\n0 fsync /p\n0 fsync /q\n",
        "dir 4 2 /\ndir 2 0 /p\ndir 2 1 /q\nfile 1 2 0 /q/f\n",
    ),
    // The directories in which a node was made come with it.
    (
        "0 mkdir /x\n0 mkdir /x/y\n0 fsync /x/y\n",
        "dir 3 1 /\ndir 3 1 /x\ndir 2 0 /x/y\n",
    ),
    // And with a file its bytes.
    (
        "0 mkdir /x\n0 create /x/f\n0 write /x/f 0 61\n0 fsync /x/f\n",
        "dir 3 1 /\ndir 2 1 /x\nfile 1 1 0 /x/f\n",
    ),
    // What is not flushed is not there, in the next phase either.
    ("0 mkdir /a\n---\n0 mkdir /b\n", "dir 2 0 /\n"),
    // What other workers made in a phase before is flushed with the directory.
    (
        "1 mkdir /a\n---\n0 mkdir /b\n---\n1 fsync /\n",
        "dir 4 2 /\ndir 2 0 /a\ndir 2 0 /b\n",
    ),
];

#[test]
fn a_flush_brings_what_belongs_together(rt: HostRuntime) {
    let alloc = rt.alloc();
    for (lines, wanted) in &FLUSHED {
        let ran = run_on_image(&rt, alloc, PLAIN, lines);
        holds(&rt, all_flushed(&ran.history));
        assert_recovers(&rt, alloc, &ran.disk, wanted);
    }
}

#[test]
fn bytes_outlive_the_name_by_which_they_were_flushed(rt: HostRuntime) {
    let alloc = rt.alloc();
    let lines =
        "0 mkdir /p\n0 mkdir /q\n0 create /p/f\n0 write /p/f 0 6869\n0 fsync /p/f\n0 link /p/f /q/f\n0 unlink /p/f\n0 fsync /p\n0 fsync /q\n";
    let ran = run_on_image(&rt, alloc, PLAIN, lines);
    let tree = recovered(&rt, alloc, &ran.disk, 1);
    let bytes = some(&rt, bytes_at(&rt, alloc, &tree, &["q", "f"]));
    same_list(&rt, bytes, b"hi".as_slice());
}

#[test]
fn a_file_that_came_and_went_needs_no_device_call(rt: HostRuntime) {
    let alloc = rt.alloc();
    let before = "0 mkdir /d\n0 fsync /\n";
    let lines = "0 mkdir /d\n0 fsync /\n0 create /d/a\n0 unlink /d/a\n0 fsync /d\n";
    let first = run_on_image(&rt, alloc, PLAIN, before);
    let ran = run_on_image(&rt, alloc, PLAIN, lines);
    holds(&rt, all_flushed(&ran.history));
    same(&rt, &ran.disk.now(), &first.disk.now());
    assert_recovers(&rt, alloc, &ran.disk, "dir 3 1 /\ndir 2 0 /d\n");
}

// Asserts the text of a history.
fn assert_text(rt: &impl Abort, alloc: Global, history: &History, wanted: &str) {
    let is = got(rt, text(alloc, history));
    same_list(rt, is.as_slice(), wanted.as_bytes());
}

#[test]
fn an_fsync_without_room_says_what_it_needs(rt: HostRuntime) {
    let alloc = rt.alloc();
    let lines = "0 mkdir /a\n0 fsync /\n0 mkdir /b\n0 fsync /\n";
    let ran = run_on_image(&rt, alloc, ONE_BLOCK, lines);
    assert_text(
        &rt,
        alloc,
        &ran.history,
        "0 0 mkdir 0 a = node 16 dir\n1 0 fsync 0 = ok\n2 0 mkdir 0 b = node 17 dir\n3 0 fsync 0 = nospace blocks need 1 free 0\n",
    );
    assert_recovers(&rt, alloc, &ran.disk, "dir 3 1 /\ndir 2 0 /a\n");
}

const THREE_FSYNCS: &str = "0 mkdir /a\n0 fsync /\n0 mkdir /b\n0 fsync /\n0 mkdir /c\n0 fsync /\n";

const ANSWERS: &str =
    "0 0 mkdir 0 a = node 64 dir\n1 0 fsync 0 = ok\n2 0 mkdir 0 b = node 65 dir\n3 0 fsync 0 = failed\n4 0 mkdir 0 c = node 66 dir\n5 0 fsync 0 = stopped 1\n";

// The number of the first sync behind so many device calls.
fn first_sync_behind(disk: &Memory, moment: u64) -> Option<u64> {
    for (number, call) in disk.calls().iter().enumerate() {
        if number as u64 >= moment && call.act == Act::Sync {
            return Some(number as u64);
        }
    }
    None
}

#[test]
fn a_sync_that_fails_stops_the_later_fsyncs(rt: HostRuntime) {
    let alloc = rt.alloc();
    let script = phases_in(&rt, alloc, THREE_FSYNCS.as_bytes());
    let once = run_on_image(&rt, alloc, PLAIN, "0 mkdir /a\n0 fsync /\n");
    let whole = run_on_image(&rt, alloc, PLAIN, THREE_FSYNCS);
    let number = some(&rt, first_sync_behind(&whole.disk, once.disk.now()));
    let disk = FailAt::new(image(&rt, alloc, PLAIN), got(&rt, vec![in alloc; number]));
    let ran = run(&rt, alloc, disk, 4096, &script, &NoGate);
    assert_text(&rt, alloc, &ran.history, ANSWERS);
    assert_recovers(
        &rt,
        alloc,
        &ran.disk.into_inner(),
        "dir 3 1 /\ndir 2 0 /a\n",
    );
}
