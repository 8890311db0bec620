// The text of each call and each reply, and of the calls that a worker makes.
use crate::helpers::{got, holds, same, same_list, some};
use script::{Course, read, text};
use sfs_base::{Chunk, CoreId, Kind, Name, NodeId, SpaceKind, Stamp};
use std::alloc::Global;
use std::process::Abort;
use tree_laws::{Call, Code, Entry, History, Reply};

// Asserts the text of the one entry of a history.
fn assert_text(rt: &impl Abort, alloc: Global, call: Call, reply: Reply, due: &[u8]) {
    let mut entries = Vec::new(alloc);
    got(
        rt,
        entries.push(Entry {
            stamp: Stamp(10),
            core: CoreId(1),
            call,
            reply,
            ack: None,
        }),
    );
    let history = History::from_entries(entries);
    same_list(rt, got(rt, text(alloc, &history)).as_slice(), due);
}

// Asserts the text of an fsync of the root.
fn assert_fsync(rt: &impl Abort, alloc: Global, reply: Reply, due: &[u8]) {
    assert_text(rt, alloc, Call::Fsync { node: NodeId(0) }, reply, due);
}

// Asserts the text of a call that was answered Ok.
fn assert_call(rt: &impl Abort, alloc: Global, call: Call, due: &[u8]) {
    assert_text(rt, alloc, call, Reply::Ok, due);
}

// Asserts the text of a name.
fn assert_name(rt: &impl Abort, alloc: Global, name: &[u8], due: &[u8]) {
    let name = got(rt, Name::new(alloc, name));
    let dir = NodeId(64);
    assert_call(rt, alloc, Call::Look { dir, name }, due);
}

#[test]
fn each_reply_of_an_fsync_has_its_text(rt: HostRuntime) {
    let alloc = rt.alloc();
    let due = b"10 1 fsync 0 = ok\n".as_slice();
    assert_fsync(&rt, alloc, Reply::Ok, due);
    let due = b"10 1 fsync 0 = failed\n".as_slice();
    assert_fsync(&rt, alloc, Reply::DiskFailed, due);
    let due = b"10 1 fsync 0 = stopped 1\n".as_slice();
    assert_fsync(&rt, alloc, Reply::Stopped { faults: 1 }, due);
    let due = b"10 1 fsync 0 = nomemory\n".as_slice();
    assert_fsync(&rt, alloc, Reply::NoMemory, due);
    let kind = SpaceKind::Inodes;
    let (need, free) = (16, 15);
    let due = b"10 1 fsync 0 = nospace inodes need 16 free 15\n".as_slice();
    assert_fsync(&rt, alloc, Reply::NoSpace { kind, need, free }, due);
    let kind = SpaceKind::Blocks;
    let (need, free) = (2, 1);
    let due = b"10 1 fsync 0 = nospace blocks need 2 free 1\n".as_slice();
    assert_fsync(&rt, alloc, Reply::NoSpace { kind, need, free }, due);
}

#[test]
fn each_code_has_its_text(rt: HostRuntime) {
    let alloc = rt.alloc();
    let codes = [
        (Code::NoEntry, "NoEntry"),
        (Code::Exists, "Exists"),
        (Code::NotDir, "NotDir"),
        (Code::IsDir, "IsDir"),
        (Code::NotEmpty, "NotEmpty"),
        (Code::Invalid, "Invalid"),
        (Code::NotPermitted, "NotPermitted"),
        (Code::TooManyLinks, "TooManyLinks"),
        (Code::FileTooBig, "FileTooBig"),
        (Code::DirFull, "DirFull"),
        (Code::NoNodes, "NoNodes"),
    ];
    for (code, word) in codes {
        let due = got(&rt, format!(in alloc; "10 1 fsync 0 = error {word}\n"));
        assert_fsync(&rt, alloc, Reply::Error { code }, due.as_bytes());
    }
}

#[test]
fn each_byte_of_a_name_has_its_text(rt: HostRuntime) {
    let alloc = rt.alloc();
    let names = [
        (b"a b".as_slice(), "a%20b"),
        (b"!~".as_slice(), "!~"),
        (b"%".as_slice(), "%25"),
        (b"\x7f".as_slice(), "%7F"),
        (b"\n\xfa".as_slice(), "%0A%FA"),
        (b"\xff\x80\x01".as_slice(), "%FF%80%01"),
        (b"\"#&+,:;<=>?@[]^_`{|}".as_slice(), "\"#&+,:;<=>?@[]^_`{|}"),
    ];
    for (name, text) in names {
        let due = got(&rt, format!(in alloc; "10 1 look 64 {text} = ok\n"));
        assert_name(&rt, alloc, name, due.as_bytes());
    }
}

#[test]
fn each_call_with_one_row_has_its_text(rt: HostRuntime) {
    let alloc = rt.alloc();
    let (dir, file) = (NodeId(3), NodeId(4));
    let name = got(&rt, Name::new(alloc, b"a".as_slice()));
    let kind = Kind::File;
    let due = b"10 1 create 3 a = ok\n".as_slice();
    assert_call(&rt, alloc, Call::Make { dir, name, kind }, due);
    let name = got(&rt, Name::new(alloc, b"a".as_slice()));
    let kind = Kind::Directory;
    let due = b"10 1 mkdir 3 a = ok\n".as_slice();
    assert_call(&rt, alloc, Call::Make { dir, name, kind }, due);
    let name = got(&rt, Name::new(alloc, b"a".as_slice()));
    let due = b"10 1 link 4 3 a = ok\n".as_slice();
    assert_call(&rt, alloc, Call::Link { file, dir, name }, due);
    let name = got(&rt, Name::new(alloc, b"a".as_slice()));
    let due = b"10 1 unlink 3 a = ok\n".as_slice();
    assert_call(&rt, alloc, Call::Unlink { dir, name }, due);
    let name = got(&rt, Name::new(alloc, b"a".as_slice()));
    let due = b"10 1 rmdir 3 a = ok\n".as_slice();
    assert_call(&rt, alloc, Call::Rmdir { dir, name }, due);
    let name = got(&rt, Name::new(alloc, b"a".as_slice()));
    let to_name = got(&rt, Name::new(alloc, b"b".as_slice()));
    let to_dir = NodeId(4_294_967_295);
    let call = Call::Rename {
        dir,
        name,
        to_dir,
        to_name,
    };
    assert_call(
        &rt,
        alloc,
        call,
        b"10 1 rename 3 a 4294967295 b = ok\n".as_slice(),
    );
}

#[test]
fn each_call_on_a_node_has_its_text(rt: HostRuntime) {
    let alloc = rt.alloc();
    let (file, node, dir) = (NodeId(4), NodeId(4), NodeId(4));
    let at = u64::MAX;
    let bytes = got(
        &rt,
        Chunk::new(got(&rt, Vec::from_slice(alloc, [0, 171, 255].as_slice()))),
    );
    let due = b"10 1 write 4 18446744073709551615 00abff = ok\n".as_slice();
    assert_call(&rt, alloc, Call::Write { file, at, bytes }, due);
    let bytes = got(&rt, Chunk::new(Vec::new(alloc)));
    let due = b"10 1 write 4 0 - = ok\n".as_slice();
    assert_call(&rt, alloc, Call::Write { file, at: 0, bytes }, due);
    let due = b"10 1 read 4 18446744073709551615 65536 = ok\n".as_slice();
    let count = 65_536;
    assert_call(&rt, alloc, Call::Read { file, at, count }, due);
    let due = b"10 1 trunc 4 7 = ok\n".as_slice();
    assert_call(&rt, alloc, Call::Trunc { file, size: 7 }, due);
    let due = b"10 1 stat 4 = ok\n".as_slice();
    assert_call(&rt, alloc, Call::Stat { node }, due);
    let due = b"10 1 list 4 = ok\n".as_slice();
    assert_call(&rt, alloc, Call::List { dir }, due);
    let due = b"10 1 fsync 4 = ok\n".as_slice();
    assert_call(&rt, alloc, Call::Fsync { node }, due);
}

#[test]
fn replies_with_values_have_their_text(rt: HostRuntime) {
    let alloc = rt.alloc();
    let node = NodeId(64);
    let kind = Kind::Directory;
    let due = b"10 1 fsync 0 = node 64 dir\n".as_slice();
    assert_fsync(&rt, alloc, Reply::Node { node, kind }, due);
    let kind = Kind::File;
    let due = b"10 1 fsync 0 = node 64 file\n".as_slice();
    assert_fsync(&rt, alloc, Reply::Node { node, kind }, due);
    let bytes = got(
        &rt,
        Chunk::new(got(&rt, Vec::from_slice(alloc, [0, 171, 255].as_slice()))),
    );
    let due = b"10 1 fsync 0 = bytes 00abff\n".as_slice();
    assert_fsync(&rt, alloc, Reply::Bytes { bytes }, due);
    let bytes = got(&rt, Chunk::new(Vec::new(alloc)));
    let due = b"10 1 fsync 0 = bytes -\n".as_slice();
    assert_fsync(&rt, alloc, Reply::Bytes { bytes }, due);
    let (kind, links, size) = (Kind::Directory, 2, 0);
    let due = b"10 1 fsync 0 = stat dir 2 0\n".as_slice();
    assert_fsync(&rt, alloc, Reply::Stat { kind, links, size }, due);
    let (kind, links, size) = (Kind::File, 65_535, 67_551_232);
    let due = b"10 1 fsync 0 = stat file 65535 67551232\n".as_slice();
    assert_fsync(&rt, alloc, Reply::Stat { kind, links, size }, due);
    same(&rt, &got(&rt, text(alloc, &History::new(alloc))).len(), &0);
}

// The reply that names a node.
fn node(number: u32, kind: Kind) -> Reply {
    Reply::Node {
        node: NodeId(number),
        kind,
    }
}

// The entries of the calls that a worker makes, where these are the replies.
fn answered(
    rt: &impl Abort,
    alloc: Global,
    worker: &mut Course,
    replies: Vec<Reply>,
) -> Vec<Entry> {
    let mut entries = Vec::new(alloc);
    for reply in replies {
        let call = got(rt, worker.next_call());
        let call = some(rt, call);
        worker.take(&reply);
        got(
            rt,
            entries.push(Entry {
                stamp: Stamp(entries.len() as u64),
                core: CoreId(3),
                call,
                reply,
                ack: None,
            }),
        );
    }
    entries
}

// The text of the calls that worker 3 makes in the first phase of a script, where these are the
// replies. It has to be at its end then.
fn calls(rt: &impl Abort, alloc: Global, script: &[u8], replies: Vec<Reply>) -> Vec<u8> {
    let script = got(rt, read(alloc, script));
    match script.phases() {
        [] => panic!(rt; "no phase"),
        [phase, ..] => {
            let mut worker = Course::new(3, phase);
            let entries = answered(rt, alloc, &mut worker, replies);
            holds(rt, got(rt, worker.next_call()).is_none());
            got(rt, text(alloc, &History::from_entries(entries)))
        }
    }
}

#[test]
fn a_worker_walks_names_and_makes_its_call(rt: HostRuntime) {
    let alloc = rt.alloc();
    let replies = got(
        &rt,
        vec![in alloc;
            node(64, Kind::File),
            node(64, Kind::File),
            Reply::Ok,
            Reply::Ok,
            node(64, Kind::Directory),
            node(65, Kind::Directory),
            Reply::Error {
                code: Code::Invalid
            },
        ],
    );
    let script =
        b"3 create /a\n0 mkdir /x\n3 link /a /b\n3 rename /a /b\n3 rename /a /a/b/c\n---\n3 stat /\n";
    let due =
        b"0 3 create 0 a = node 64 file\n1 3 look 0 a = node 64 file\n2 3 link 64 0 b = ok\n3 3 rename 0 a 0 b = ok\n4 3 look 0 a = node 64 dir\n5 3 look 64 b = node 65 dir\n6 3 rename 0 a 65 c = error Invalid\n";
    same_list(
        &rt,
        calls(&rt, alloc, script.as_slice(), replies).as_slice(),
        due.as_slice(),
    );
}

#[test]
fn a_walk_ends_with_the_first_other_reply(rt: HostRuntime) {
    let alloc = rt.alloc();
    let refused = Reply::Error {
        code: Code::NoEntry,
    };
    let replies = got(
        &rt,
        vec![in alloc;
            node(64, Kind::Directory),
            refused,
            node(64, Kind::Directory),
            Reply::Error { code: Code::NotDir },
            Reply::Error {
                code: Code::NoEntry
            },
            node(64, Kind::Directory),
            Reply::Error {
                code: Code::NoEntry
            },
            Reply::Ok,
        ],
    );
    let script =
        b"3 stat /a/b/c\n3 rename /a/b/c /d/e\n3 link /f /g/h\n3 link /f /g/h\n3 fsync /\n";
    let due =
        b"0 3 look 0 a = node 64 dir\n1 3 look 64 b = error NoEntry\n2 3 look 0 a = node 64 dir\n3 3 look 64 b = error NotDir\n4 3 look 0 f = error NoEntry\n5 3 look 0 f = node 64 dir\n6 3 look 0 g = error NoEntry\n7 3 fsync 0 = ok\n";
    same_list(
        &rt,
        calls(&rt, alloc, script.as_slice(), replies).as_slice(),
        due.as_slice(),
    );
}

#[test]
fn each_command_ends_with_its_call(rt: HostRuntime) {
    let alloc = rt.alloc();
    let mut replies = Vec::new(alloc);
    for _ in 0..7 {
        got(&rt, replies.push(node(7, Kind::Directory)));
        got(&rt, replies.push(Reply::Ok));
    }
    got(&rt, replies.push(Reply::Ok));
    let script =
        b"3 mkdir /d/n\n3 unlink /d/n\n3 rmdir /d/n\n3 write /f 5 00ff\n3 read /f 5 6\n3 trunc /f 9\n3 list /d\n3 fsync /\n";
    let due =
        b"0 3 look 0 d = node 7 dir\n1 3 mkdir 7 n = ok\n2 3 look 0 d = node 7 dir\n3 3 unlink 7 n = ok\n4 3 look 0 d = node 7 dir\n5 3 rmdir 7 n = ok\n6 3 look 0 f = node 7 dir\n7 3 write 7 5 00ff = ok\n8 3 look 0 f = node 7 dir\n9 3 read 7 5 6 = ok\n10 3 look 0 f = node 7 dir\n11 3 trunc 7 9 = ok\n12 3 look 0 d = node 7 dir\n13 3 list 7 = ok\n14 3 fsync 0 = ok\n";
    same_list(
        &rt,
        calls(&rt, alloc, script.as_slice(), replies).as_slice(),
        due.as_slice(),
    );
}
