// Texts of the greatest length that is checked, and of one byte more.
use crate::LongSource;
use crate::helpers::{done, made, same};
use scalefs_run::Status;
use sfs_base::Measure;
use sfs_dev::Disk;

// How many bytes a text that is checked has at most.
const MOST: u64 = 268_435_456;

#[test]
fn a_text_of_the_greatest_length_is_looked_at(rt: HostRuntime) {
    let alloc = rt.alloc();
    let source = LongSource::new(b'\n', MOST);
    let ran = done(&rt, alloc, &["check"], source, made(&rt, alloc));
    same(&rt, &ran.status, &Status::WrongHistory { line: 1 });
    same(&rt, &ran.text.len(), &0);
}

#[test]
fn a_text_of_one_byte_more_is_too_long(rt: HostRuntime) {
    let alloc = rt.alloc();
    let source = LongSource::new(b'\n', MOST + 1);
    let ran = done(&rt, alloc, &["check"], source, made(&rt, alloc));
    let due = Status::TooLong {
        measure: Measure::Bytes,
    };
    same(&rt, &ran.status, &due);
    same(&rt, &ran.text.len(), &0);
    same(&rt, &ran.disk.now(), &0);
}
