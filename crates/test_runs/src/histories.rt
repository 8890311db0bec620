// The text of a history, and what stands on the disk after it.
use crate::bench::{SMALL, assert_only_read, assert_shown, assert_text, fresh, image, run_script};
use crate::helpers::{got, holds, same, same_list};
use scalefs_run::Status;

const FIRST_SCRIPT: &str = "0 mkdir /a\n0 fsync /\n";

#[test]
fn the_smallest_run(rt: HostRuntime) {
    let alloc = rt.alloc();
    let ran = run_script(
        &rt,
        alloc,
        FIRST_SCRIPT.as_bytes(),
        image(&rt, alloc, SMALL),
    );
    same(&rt, &ran.status, &Status::Done);
    same_list(
        &rt,
        ran.text.as_slice(),
        b"0 0 mkdir 0 a = node 64 dir\n1 0 fsync 0 = ok\n".as_slice(),
    );
    same(&rt, &ran.history.len(), &2);
    assert_shown(&rt, alloc, ran.disk, "dir 3 1 /\ndir 2 0 /a\n");
}

#[test]
fn an_empty_script_writes_nothing(rt: HostRuntime) {
    let alloc = rt.alloc();
    let ran = run_script(&rt, alloc, b"".as_slice(), image(&rt, alloc, SMALL));
    same(&rt, &ran.status, &Status::Done);
    holds(&rt, ran.text.is_empty());
    holds(&rt, ran.history.is_empty());
    assert_only_read(&rt, &ran.disk);
    assert_shown(&rt, alloc, ran.disk, "dir 2 0 /\n");
}

#[test]
fn a_second_run_finds_what_was_flushed(rt: HostRuntime) {
    let alloc = rt.alloc();
    let made = "0 0 mkdir 0 a = node 1024 dir\n1 0 fsync 0 = ok\n";
    let disk = assert_text(&rt, alloc, FIRST_SCRIPT, fresh(&rt, alloc), made);
    // The row has come from the disk, so the node has its inode's number.
    let found =
        "0 0 mkdir 0 a = error Exists\n1 0 look 0 a = node 1 dir\n2 0 stat 1 = stat dir 2 0\n";
    let disk = assert_text(&rt, alloc, "0 mkdir /a\n0 stat /a\n", disk, found);
    let other = "0 0 mkdir 0 b = node 1024 dir\n";
    let disk = assert_text(&rt, alloc, "0 mkdir /b\n", disk, other);
    // That run flushed nothing.
    let disk = assert_text(&rt, alloc, "0 mkdir /b", disk, other);
    assert_shown(&rt, alloc, disk, "dir 3 1 /\ndir 2 0 /a\n");
}

#[test]
fn a_second_run_finds_names_of_one_file_and_of_two(rt: HostRuntime) {
    let alloc = rt.alloc();
    let script = "0 create /a\n0 link /a /b\n0 create /c\n0 fsync /\n";
    let made =
        "0 0 create 0 a = node 64 file\n1 0 look 0 a = node 64 file\n2 0 link 64 0 b = ok\n3 0 create 0 c = node 65 file\n4 0 fsync 0 = ok\n";
    let disk = assert_text(&rt, alloc, script, image(&rt, alloc, SMALL), made);
    let tree = "dir 2 3 /\nfile 2 0 0 /a\nfile 2 0 0 /b\nfile 1 0 1 /c\n";
    let disk = assert_shown(&rt, alloc, disk, tree);
    let script = "0 list /\n0 stat /a\n0 stat /b\n0 stat /c\n0 create /d\n0 unlink /a\n0 stat /b\n";
    let found =
        "0 0 list 0 = list a b c\n1 0 look 0 a = node 1 file\n2 0 stat 1 = stat file 2 0\n3 0 look 0 b = node 1 file\n4 0 stat 1 = stat file 2 0\n5 0 look 0 c = node 2 file\n6 0 stat 2 = stat file 1 0\n7 0 create 0 d = node 64 file\n8 0 unlink 0 a = ok\n9 0 look 0 b = node 1 file\n10 0 stat 1 = stat file 1 0\n";
    let disk = assert_text(&rt, alloc, script, disk, found);
    // That run flushed nothing.
    assert_shown(&rt, alloc, disk, tree);
}

#[test]
fn a_second_run_finds_bytes_and_flushes_more(rt: HostRuntime) {
    let alloc = rt.alloc();
    let script = "0 create /f\n0 write /f 4095 6869\n0 fsync /f\n0 write /f 0 78\n";
    let made =
        "0 0 create 0 f = node 64 file\n1 0 look 0 f = node 64 file\n2 0 write 64 4095 6869 = ok\n3 0 look 0 f = node 64 file\n4 0 fsync 64 = ok\n5 0 look 0 f = node 64 file\n6 0 write 64 0 78 = ok\n";
    let disk = assert_text(&rt, alloc, script, image(&rt, alloc, SMALL), made);
    let script =
        "0 read /f 0 2\n0 read /f 4094 9\n0 trunc /f 4096\n0 link /f /g\n0 fsync /f\n0 fsync /\n";
    let found =
        "0 0 look 0 f = node 1 file\n1 0 read 1 0 2 = bytes 0000\n2 0 look 0 f = node 1 file\n3 0 read 1 4094 9 = bytes 006869\n4 0 look 0 f = node 1 file\n5 0 trunc 1 4096 = ok\n6 0 look 0 f = node 1 file\n7 0 link 1 0 g = ok\n8 0 look 0 f = node 1 file\n9 0 fsync 1 = ok\n10 0 fsync 0 = ok\n";
    let disk = assert_text(&rt, alloc, script, disk, found);
    let disk = assert_shown(
        &rt,
        alloc,
        disk,
        "dir 2 2 /\nfile 2 4096 0 /f\nfile 2 4096 0 /g\n",
    );
    let script = "0 read /g 4090 65536\n";
    let found = "0 0 look 0 g = node 1 file\n1 0 read 1 4090 65536 = bytes 000000000068\n";
    assert_text(&rt, alloc, script, disk, found);
}

#[test]
fn sixteen_rows_take_two_blocks(rt: HostRuntime) {
    let alloc = rt.alloc();
    let mut script = Vec::new(alloc);
    for letter in b'a'..=b'p' {
        got(&rt, script.extend_from_slice(b"0 mkdir /".as_slice()));
        got(&rt, script.push(letter));
        got(&rt, script.push(b'\n'));
    }
    got(&rt, script.extend_from_slice(b"0 fsync /\n".as_slice()));
    // One block is free, and then two are.
    let ran = run_script(&rt, alloc, &script, image(&rt, alloc, (30, 64, 2)));
    same(&rt, &ran.history.len(), &17);
    holds(
        &rt,
        ran.text.ends_with(
            b"15 0 mkdir 0 p = node 79 dir\n16 0 fsync 0 = nospace blocks need 2 free 1\n".as_slice(),
        ),
    );
    assert_only_read(&rt, &ran.disk);
    let ran = run_script(&rt, alloc, &script, image(&rt, alloc, (31, 64, 2)));
    holds(&rt, ran.text.ends_with(b"\n16 0 fsync 0 = ok\n".as_slice()));
    assert_text(
        &rt,
        alloc,
        "0 stat /\n",
        ran.disk,
        "0 0 stat 0 = stat dir 18 16\n",
    );
}
