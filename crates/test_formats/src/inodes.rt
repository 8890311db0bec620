// Records of inodes, indirect blocks, and where pointers stand.
use crate::helpers::{got, holds, same, same_list};
use fmt_inode::{
    Bad, Inode, LARGEST, PointerPlace, Records, Table, Tables, decode, encode, pointer_of,
};
use sfs_image::first_nonzero;
use std::process::Abort;

// The bytes with which the record of a root begins that has one directory, in block 29.
const FRONT: [u8; 20] = [
    2, 0, 0, 0, 3, 0, 0, 0, 0, 0x10, 0, 0, 0, 0, 0, 0, 29, 0, 0, 0,
];

// Asserts the fault of a record that is zeros but for its kind and one byte.
fn assert_bad(rt: &impl Abort, kind: u8, at: usize, byte: u8, fault: u32) {
    let mut bytes = [0u8; 512];
    bytes[0] = kind;
    holds(rt, at < 512);
    bytes[at] = byte;
    match decode(&bytes) {
        Err(bad) => same(rt, &bad, &Bad { at: fault }),
        Ok(_) => panic!(rt; "taken"),
    }
}

#[test]
fn a_record_has_its_bytes(rt: HostRuntime) {
    let mut inode = Inode {
        kind: 2,
        links: 3,
        size: 4096,
        direct: [0; 108],
        indirect: [0; 16],
    };
    inode.direct[0] = 29;
    let mut bytes = [0xffu8; 512];
    encode(&inode, &mut bytes);
    same_list(&rt, &bytes[..20], FRONT.as_slice());
    same(&rt, &first_nonzero(&bytes, 20, 512), &None);
    inode.direct[107] = 0x01020304;
    inode.indirect[0] = 5;
    inode.indirect[15] = 0x06000000;
    encode(&inode, &mut bytes);
    same_list(
        &rt,
        &bytes[440..456],
        [0, 0, 0, 0, 4, 3, 2, 1, 5, 0, 0, 0, 0, 0, 0, 0].as_slice(),
    );
    same_list(&rt, &bytes[504..], [0, 0, 0, 0, 0, 0, 0, 6].as_slice());
}

#[test]
fn a_record_is_read(rt: HostRuntime) {
    let mut bytes = [0u8; 512];
    bytes[..20].copy_from_slice(&FRONT);
    bytes[511] = 6;
    match decode(&bytes) {
        Err(_) => panic!(rt; "refused"),
        Ok(inode) => {
            same(&rt, &inode.kind, &2);
            same(&rt, &inode.links, &3);
            same(&rt, &inode.size, &4096);
            same(&rt, &inode.direct[0], &29);
            same(&rt, &inode.indirect[15], &0x06000000);
        }
    }
    match decode(&[0u8; 512]) {
        Err(_) => panic!(rt; "refused"),
        Ok(inode) => same(&rt, &inode.kind, &0),
    }
}

#[test]
fn each_byte_is_refused_at_its_place(rt: HostRuntime) {
    assert_bad(&rt, 3, 0, 3, 0);
    assert_bad(&rt, 3, 2, 1, 0);
    assert_bad(&rt, 1, 1, 1, 1);
    assert_bad(&rt, 2, 3, 1, 3);
    assert_bad(&rt, 0, 4, 1, 4);
    assert_bad(&rt, 0, 511, 1, 511);
}

#[test]
fn pointers_stand_in_the_record_or_in_an_indirect_block(rt: HostRuntime) {
    same(&rt, &pointer_of(0), &PointerPlace::Direct { place: 0 });
    same(&rt, &pointer_of(107), &PointerPlace::Direct { place: 107 });
    same(
        &rt,
        &pointer_of(108),
        &PointerPlace::Indirect { table: 0, place: 0 },
    );
    same(
        &rt,
        &pointer_of(1131),
        &PointerPlace::Indirect {
            table: 0,
            place: 1023,
        },
    );
    same(
        &rt,
        &pointer_of(1132),
        &PointerPlace::Indirect { table: 1, place: 0 },
    );
    same(
        &rt,
        &pointer_of(LARGEST - 1),
        &PointerPlace::Indirect {
            table: 15,
            place: 1023,
        },
    );
}

#[test]
fn an_indirect_block_has_its_bytes(rt: HostRuntime) {
    let mut table = got(&rt, Table::holes(rt.alloc(), 3));
    table.put(5, 0x0a0b0c0d);
    let mut block = [0xffu8; 4096];
    got(&rt, table.copy()).encode(&mut block);
    same(&rt, &first_nonzero(&block, 0, 4096), &Some(20));
    same_list(&rt, &block[20..24], [0x0d, 0x0c, 0x0b, 0x0a].as_slice());
    same(&rt, &first_nonzero(&block, 24, 4096), &None);
    let again = got(&rt, Table::decode(rt.alloc(), 3, &block));
    same(&rt, &again.place(), &3);
    same(&rt, &again.pointer(5), &0x0a0b0c0d);
    same(&rt, &again.pointer(1023), &0);
}

#[test]
fn indirect_blocks_are_found_by_their_places(rt: HostRuntime) {
    let mut tables = Tables::new(rt.alloc());
    got(&rt, tables.reserve(1));
    tables.push(got(&rt, Table::holes(rt.alloc(), 3)));
    let tables = got(&rt, tables.copy());
    holds(&rt, tables.find(3).is_some());
    holds(&rt, tables.find(4).is_none());
    holds(&rt, tables.get(0).is_some());
    holds(&rt, tables.get(1).is_none());
    let mut records = Records::new(rt.alloc());
    got(&rt, records.reserve(1));
    records.push([0u8; 512]);
    same(&rt, &records.len(), &1);
}
