// What the commands `show` and `verify` do with a disk, by the calls that the program makes for them.
use image_verdict::{Verdict, write_verdict};
use recovery::recover;
use script::tree_text;
use sfs_base::{BytesSink, Sink, write_all};
use sfs_dev::Disk;
use std::alloc::Global;
use std::io;
use std::rt::Clock;
use std::time::Instant;

/// Shows the image of a disk, and says in how many device calls and in what time.
pub fn measure_show<R: Clock + Print, D: Disk>(
    rt: &R,
    alloc: Global,
    disk: &mut D,
) -> io::Result<()> {
    let mut sink = BytesSink::new(alloc, Vec::new(alloc));
    let before = disk.now();
    let start = Instant::now(rt)?;
    let shown = show(alloc, &mut sink, disk);
    let passed = start.elapsed(rt)?.as_micros();
    let calls = disk.now().saturating_sub(before);
    println!(rt;
        "shown {shown}, {} bytes of text, in {calls} device calls and {passed} us",
        sink.bytes().len()
    )
}

// Recovers a disk and writes the text of its tree.
fn show<K: Sink, D: Disk>(alloc: Global, sink: &mut K, disk: &mut D) -> bool {
    let Ok(report) = recover(alloc, disk) else {
        return false;
    };
    let Ok(text) = tree_text(alloc, &report.tree) else {
        return false;
    };
    write_all(sink, &text).is_ok()
}

/// Writes the verdict on the image of a disk, and says in how many device calls and in what time.
pub fn measure_verify<R: Clock + Print, D: Disk>(
    rt: &R,
    alloc: Global,
    disk: &mut D,
) -> io::Result<()> {
    let mut sink = BytesSink::new(alloc, Vec::new(alloc));
    let before = disk.now();
    let start = Instant::now(rt)?;
    let sound = matches!(write_verdict(alloc, &mut sink, disk), Verdict::Sound);
    let passed = start.elapsed(rt)?.as_micros();
    let calls = disk.now().saturating_sub(before);
    println!(rt;
        "sound {sound}, {} bytes of text, in {calls} device calls and {passed} us",
        sink.bytes().len()
    )
}
