// A disk in memory.
use crate::helpers::{got, holds, same, same_list};
use sfs_dev::{Act, Call, Disk, Memory};

#[test]
fn a_disk_in_memory_keeps_its_calls(rt: HostRuntime) {
    let mut disk = got(&rt, Memory::new(rt.alloc(), 2));
    got(&rt, disk.reserve(3, 4));
    same(&rt, &disk.len(), &2);
    same(&rt, &disk.now(), &0);
    holds(&rt, disk.write_at(4_094, &[1, 2, 3, 4]).is_ok());
    let mut bytes = [9u8; 6];
    holds(&rt, disk.read_at(4_093, &mut bytes).is_ok());
    same(&rt, &bytes, &[0, 1, 2, 3, 4, 0]);
    holds(&rt, disk.sync().is_ok());
    same(&rt, &disk.now(), &3);
    same(&rt, &disk.faults(), &0);
    same_list(&rt, disk.written(), [1, 2, 3, 4].as_slice());
    let calls = [
        Call {
            moment: 1,
            act: Act::Write {
                at: 4_094,
                count: 4,
            },
        },
        Call {
            moment: 2,
            act: Act::Read {
                at: 4_093,
                count: 6,
            },
        },
        Call {
            moment: 3,
            act: Act::Sync,
        },
    ];
    same_list(&rt, disk.calls(), calls.as_slice());
}

#[test]
fn a_disk_has_whole_blocks(rt: HostRuntime) {
    match Memory::of(rt.alloc(), got(&rt, vec![in rt.alloc(); 7u8; 8_192])) {
        Ok(disk) => {
            same(&rt, &disk.len(), &2);
            same_list(
                &rt,
                disk.bytes(),
                got(&rt, vec![in rt.alloc(); 7u8; 8_192]).as_slice(),
            );
        }
        Err(_) => panic!(rt; "refused"),
    }
    match Memory::of(rt.alloc(), got(&rt, vec![in rt.alloc(); 7u8; 8_193])) {
        Ok(_) => panic!(rt; "taken"),
        Err(bytes) => same(&rt, &bytes.len(), &8_193),
    }
}
