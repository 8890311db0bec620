// The front of a journal slot, and where its numbers and records stand.
use crate::helpers::{holds, same, same_list};
use fmt_journal::{
    Head, SlotPlace, Tx, TxBlock, TxRecord, decode_head, encode_head, head_fault, number_place,
    numbers_fault, record_place,
};
use sfs_base::{BlockList, InodeList, RoomyList};
use sfs_image::first_nonzero;

const HEAD: Head = Head {
    gate: true,
    count: 2,
    stamp: 1,
};

#[test]
fn a_head_is_written_with_a_closed_gate(rt: HostRuntime) {
    let mut block = [0xffu8; 4096];
    encode_head(&HEAD, &mut block);
    same(&rt, &block[0], &0);
    same(&rt, &first_nonzero(&block, 0, 4096), &Some(512));
    same_list(
        &rt,
        &block[512..528],
        [2, 0, 0, 0, 0, 0, 0, 0, 1, 0, 0, 0, 0, 0, 0, 0].as_slice(),
    );
    same(&rt, &first_nonzero(&block, 528, 4096), &None);
    same(
        &rt,
        &decode_head(&block),
        &Head {
            gate: false,
            ..HEAD
        },
    );
    block[0] = 1;
    same(&rt, &decode_head(&block), &HEAD);
    block[0] = 7;
    // Bytes without a name are ignored.
    block[1] = 9;
    block[519] = 9;
    same(
        &rt,
        &decode_head(&block),
        &Head {
            gate: false,
            ..HEAD
        },
    );
}

#[test]
fn a_head_is_refused_at_its_place(rt: HostRuntime) {
    same(&rt, &head_fault(&HEAD, 64, &[2, 3]), &None);
    same(&rt, &head_fault(&HEAD, 64, &[2, 1]), &Some(520));
    same(
        &rt,
        &head_fault(&Head { count: 64, ..HEAD }, 64, &[]),
        &None,
    );
    same(
        &rt,
        &head_fault(&Head { count: 65, ..HEAD }, 64, &[1]),
        &Some(512),
    );
}

#[test]
fn numbers_are_refused_at_their_places(rt: HostRuntime) {
    same(&rt, &numbers_fault(&[], 64), &None);
    same(&rt, &numbers_fault(&[0, 63], 64), &None);
    same(&rt, &numbers_fault(&[64], 64), &Some(4096));
    same(&rt, &numbers_fault(&[1, 1], 64), &Some(4100));
    same(&rt, &numbers_fault(&[0, 5, 4, 64], 64), &Some(4104));
}

#[test]
fn numbers_and_records_have_places(rt: HostRuntime) {
    same(&rt, &number_place(0), &SlotPlace { block: 1, byte: 0 });
    same(
        &rt,
        &number_place(1023),
        &SlotPlace {
            block: 1,
            byte: 4092,
        },
    );
    same(&rt, &number_place(1024), &SlotPlace { block: 2, byte: 0 });
    same(&rt, &record_place(64, 0), &SlotPlace { block: 2, byte: 0 });
    same(
        &rt,
        &record_place(64, 63),
        &SlotPlace {
            block: 9,
            byte: 3584,
        },
    );
    same(
        &rt,
        &record_place(2048, 8),
        &SlotPlace { block: 4, byte: 0 },
    );
}

#[test]
fn a_transaction_holds_what_it_writes_and_gives_up(rt: HostRuntime) {
    let tx = Tx {
        records: RoomyList::<TxRecord>::new(rt.alloc()),
        fresh: RoomyList::<TxBlock>::new(rt.alloc()),
        freed_blocks: BlockList::new(rt.alloc()),
        freed_inodes: InodeList::new(rt.alloc()),
    };
    holds(&rt, tx.records.is_empty());
}
