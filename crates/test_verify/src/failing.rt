// Both calls over a disk that fails, at each of their device calls in turn.
use crate::helpers::{got, holds, same};
use crate::images::full;
use dev_fake::Fuse;
use image_check::{AcceptFault, VerifyFault, accept, certify};
use sfs_dev::Disk;

// How many reads there are: the superblock, the heads of two slots, the inode table, the indirect block,
// and the blocks that the pointers name, 29 to 32, 34 and 35.
const READS: u64 = 11;

#[test]
fn a_failing_read_is_a_fault(rt: HostRuntime) {
    let alloc = rt.alloc();
    for passes in 0..READS {
        let mut disk = Fuse::new(full(&rt, alloc), passes);
        let faults = disk.faults();
        let cert = certify(alloc, &mut disk);
        holds(&rt, matches!(cert, Err(VerifyFault::DiskFailed)));
        holds(&rt, disk.faults() > faults);
    }
    let mut disk = Fuse::new(full(&rt, alloc), READS);
    let cert = got(&rt, certify(alloc, &mut disk));
    // All device calls of the disk have passed now.
    same(
        &rt,
        &accept(alloc, &mut disk, &cert),
        &Err(AcceptFault::DiskFailed),
    );
    let mut disk = Fuse::new(disk.into_inner(), READS);
    same(&rt, &accept(alloc, &mut disk, &cert), &Ok(true));
}
