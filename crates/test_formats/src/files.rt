// The bytes of a file and the marks of its blocks.
use crate::helpers::{got, holds, same};
use mem_files::{FileBytes, LONGEST_FILE, Touched};
use sfs_base::Stamp;
use std::alloc::Global;
use std::process::Abort;

const NONE: Touched = Touched { first: 0, end: 0 };

#[test]
fn a_write_touches_the_blocks_that_it_overlaps(rt: HostRuntime) {
    let mut file = FileBytes::new(rt.alloc());
    same(
        &rt,
        &got(&rt, file.write(4_090, b"0123456789".as_slice())),
        &Touched { first: 0, end: 2 },
    );
    same(&rt, &got(&rt, file.write(0, b"".as_slice())), &NONE);
    same(&rt, &file.size(), &4_100);
    let mut buffer = [9u8; 14];
    same(&rt, &file.read(4_088, &mut buffer), &12);
    same(
        &rt,
        &buffer,
        &[
            0, 0, b'0', b'1', b'2', b'3', b'4', b'5', b'6', b'7', b'8', b'9', 9, 9,
        ],
    );
    same(&rt, &file.read(4_100, &mut buffer), &0);
}

#[test]
fn a_truncation_touches_the_blocks_that_had_bytes(rt: HostRuntime) {
    let mut file = FileBytes::new(rt.alloc());
    same(
        &rt,
        &got(&rt, file.write(67_551_231, b"x".as_slice())),
        &Touched {
            first: 16_491,
            end: 16_492,
        },
    );
    same(&rt, &file.size(), &67_551_232);
    same(
        &rt,
        &got(&rt, file.trunc(4_096)),
        &Touched {
            first: 1,
            end: 16_492,
        },
    );
    same(&rt, &got(&rt, file.trunc(4_096)), &NONE);
    same(&rt, &got(&rt, file.trunc(5_000)), &NONE);
    same(&rt, &file.size(), &5_000);
}

#[test]
fn what_was_cut_off_is_zeros_afterwards(rt: HostRuntime) {
    let mut file = FileBytes::new(rt.alloc());
    same(
        &rt,
        &got(&rt, file.write(3, b"hi".as_slice())),
        &Touched { first: 0, end: 1 },
    );
    same(&rt, &got(&rt, file.trunc(4)), &Touched { first: 0, end: 1 });
    same(&rt, &got(&rt, file.trunc(6)), &NONE);
    let mut buffer = [9u8; 8];
    same(&rt, &file.read(0, &mut buffer), &6);
    same(&rt, &buffer, &[0, 0, 0, b'h', 0, 0, 9, 9]);
}

#[test]
fn blocks_keep_their_marks(rt: HostRuntime) {
    let mut file = FileBytes::new(rt.alloc());
    let touched = got(&rt, file.write(4_000, b"0123".as_slice()));
    same(&rt, &file.last(0), &None);
    file.mark(touched, Stamp(7));
    same(&rt, &file.last(0), &Some(Stamp(7)));
    same(&rt, &file.last(1), &None);
    let copy = got(&rt, file.copy());
    same(&rt, &copy.size(), &4_004);
    same(&rt, &copy.last(0), &Some(Stamp(7)));
    holds(&rt, LONGEST_FILE >= 67_551_232);
}

// How many blocks a file has that were touched from a stamp on, and the last of them, 99 where there is none.
fn touched_from(rt: &impl Abort, alloc: Global, file: &FileBytes, cut: u64) -> (usize, u32) {
    let touched = got(rt, file.touched_from(alloc, Stamp(cut)));
    let last = match touched.blocks.last() {
        Some(block) => block.block,
        None => 99,
    };
    (touched.blocks.len(), last)
}

#[test]
fn the_blocks_that_were_touched_from_a_stamp_on_are_copied(rt: HostRuntime) {
    let alloc = rt.alloc();
    let mut file = FileBytes::new(alloc);
    let touched = got(&rt, file.write(8_192, b"c".as_slice()));
    file.mark(touched, Stamp(4));
    let touched = got(&rt, file.write(1, b"a".as_slice()));
    file.mark(touched, Stamp(7));
    same(&rt, &touched_from(&rt, alloc, &file, 0), &(2, 2));
    same(&rt, &touched_from(&rt, alloc, &file, 4), &(2, 2));
    same(&rt, &touched_from(&rt, alloc, &file, 5), &(1, 0));
    same(&rt, &touched_from(&rt, alloc, &file, 7), &(1, 0));
    same(&rt, &touched_from(&rt, alloc, &file, 8), &(0, 99));
    let touched = got(&rt, file.touched_from(alloc, Stamp(7)));
    same(&rt, &touched.size, &8_193);
    let Some(block) = touched.blocks.first() else {
        panic!(rt; "no block was copied");
    };
    same(&rt, &block.mark, &Stamp(7));
    same(&rt, &block.bytes[0], &0);
    same(&rt, &block.bytes[1], &b'a');
    same(&rt, &block.bytes[4_095], &0);
}

#[test]
fn a_truncation_by_one_byte_touches_the_last_block(rt: HostRuntime) {
    let mut file = FileBytes::new(rt.alloc());
    same(
        &rt,
        &got(&rt, file.write(4_095, b"x".as_slice())),
        &Touched { first: 0, end: 1 },
    );
    same(
        &rt,
        &got(&rt, file.trunc(4_095)),
        &Touched { first: 0, end: 1 },
    );
    same(&rt, &file.size(), &4_095);
}
