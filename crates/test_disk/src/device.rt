// A disk over a file.
use crate::helpers::{got, holds, same, same_list};
use dev_file::FileDisk;
use sfs_dev::Disk;
use std::fs::{self, OpenOptions};

const PATH: &str = "device.img";

#[test]
fn a_disk_over_a_file_keeps_its_bytes(rt: HostRuntime) {
    got(&rt, fs::write(&rt, PATH, b"abc".as_slice()));
    let file = got(
        &rt,
        OpenOptions::new().read(true).write(true).open(&rt, PATH),
    );
    let mut disk = FileDisk::new(file);
    same(
        &rt,
        &(disk.len(), disk.now(), disk.faults()),
        &(262_144, 0, 0),
    );
    // Behind the file's end there are zeros.
    let mut bytes = [9u8; 4];
    holds(&rt, disk.read_at(1, &mut bytes).is_ok());
    same(&rt, &bytes, b"bc\0\0");
    // A write behind its end lengthens it.
    holds(&rt, disk.write_at(8_190, &[1, 2, 3]).is_ok());
    holds(&rt, disk.sync().is_ok());
    same(&rt, &(disk.now(), disk.faults()), &(3, 0));
    drop(disk);
    let held = got(&rt, fs::read(&rt, PATH));
    same(&rt, &held.len(), &8_193);
    holds(&rt, held.starts_with(b"abc\0"));
    holds(&rt, held.ends_with(&[0, 1, 2, 3]));
    got(&rt, fs::remove_file(&rt, PATH));
}

#[test]
fn a_file_that_may_not_be_written_fails(rt: HostRuntime) {
    got(&rt, fs::write(&rt, "reading.img", b"abc".as_slice()));
    let mut disk = FileDisk::new(got(&rt, OpenOptions::new().read(true).open(&rt, "reading.img")));
    holds(&rt, disk.write_at(0, &[1]).is_err());
    same(&rt, &(disk.now(), disk.faults()), &(1, 1));
    same_list(
        &rt,
        got(&rt, fs::read(&rt, "reading.img")).as_slice(),
        b"abc".as_slice(),
    );
    got(&rt, fs::remove_file(&rt, "reading.img"));
}
