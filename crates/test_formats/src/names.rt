// Names, paths, chunks, buckets and lists.
use crate::helpers::{got, holds, same, same_list};
use sfs_base::{
    BlockList, Chunk, ChunkFault, Name, NameFault, NodeId, NodeList, Path, PathFault, bucket_of,
};
use std::alloc::Global;
use std::process::Abort;

// Asserts why bytes are no name.
fn assert_refused(rt: &impl Abort, alloc: Global, bytes: &[u8], due: NameFault) {
    match Name::new(alloc, bytes) {
        Err(fault) => same(rt, &fault, &due),
        Ok(_) => panic!(rt; "taken"),
    }
}

// Asserts the bucket of a name.
fn assert_bucket(rt: &impl Abort, alloc: Global, bytes: &[u8], bucket: u8) {
    let name = got(rt, Name::new(alloc, bytes));
    same_list(rt, name.bytes(), bytes);
    same_list(rt, got(rt, name.copy()).bytes(), bytes);
    same(rt, &bucket_of(&name), &bucket);
}

#[test]
fn names_are_refused_in_the_order_of_their_rules(rt: HostRuntime) {
    let alloc = rt.alloc();
    assert_refused(&rt, alloc, b"".as_slice(), NameFault::Empty);
    let longer = got(&rt, vec![in alloc; b'/'; 256]);
    assert_refused(&rt, alloc, &longer, NameFault::TooLong { len: 256 });
    assert_refused(&rt, alloc, b"a/b".as_slice(), NameFault::BadByte { at: 1 });
    assert_refused(&rt, alloc, b"./\0".as_slice(), NameFault::BadByte { at: 1 });
    assert_refused(&rt, alloc, b"ab\0".as_slice(), NameFault::BadByte { at: 2 });
    assert_refused(&rt, alloc, b".".as_slice(), NameFault::Dot);
    assert_refused(&rt, alloc, b"..".as_slice(), NameFault::Dot);
}

#[test]
fn names_have_buckets(rt: HostRuntime) {
    let alloc = rt.alloc();
    assert_bucket(&rt, alloc, b"a".as_slice(), 1);
    // 31 * 98 + 97 is 3,135.
    assert_bucket(&rt, alloc, b"ba".as_slice(), 7);
    assert_bucket(&rt, alloc, b"000000".as_slice(), 0);
    assert_bucket(&rt, alloc, b"gggggg".as_slice(), 0);
    assert_bucket(&rt, alloc, b"...".as_slice(), 6);
    let longest = got(&rt, vec![in alloc; b'n'; 255]);
    // An odd number of bytes: all but the first stand in pairs, and a pair adds a multiple of 8.
    assert_bucket(&rt, alloc, &longest, 6);
}

#[test]
fn a_path_has_4096_bytes_at_most(rt: HostRuntime) {
    let alloc = rt.alloc();
    let longest = got(&rt, vec![in alloc; b'n'; 255]);
    let mut names = Vec::new(alloc);
    for _ in 0..16 {
        got(&rt, names.push(got(&rt, Name::new(alloc, &longest))));
    }
    let path = match Path::new(names) {
        Ok(path) => path,
        Err(_) => panic!(rt; "refused"),
    };
    same(&rt, &path.names().len(), &16);
    let copy = got(&rt, path.copy());
    same(&rt, &copy.names().len(), &16);
}

#[test]
fn a_longer_path_comes_back(rt: HostRuntime) {
    let alloc = rt.alloc();
    let longest = got(&rt, vec![in alloc; b'n'; 255]);
    let mut names = Vec::new(alloc);
    for _ in 0..16 {
        got(&rt, names.push(got(&rt, Name::new(alloc, &longest))));
    }
    got(&rt, names.push(got(&rt, Name::new(alloc, b"n".as_slice()))));
    match Path::new(names) {
        Ok(_) => panic!(rt; "taken"),
        Err(PathFault::TooLong { len, names }) => {
            same(&rt, &len, &4098);
            same(&rt, &names.len(), &17);
        }
    }
}

#[test]
fn a_chunk_has_65536_bytes_at_most(rt: HostRuntime) {
    let alloc = rt.alloc();
    match Chunk::new(got(&rt, vec![in alloc; 7u8; 65_536])) {
        Ok(chunk) => same(&rt, &got(&rt, chunk.copy()).bytes().len(), &65_536),
        Err(_) => panic!(rt; "refused"),
    }
    match Chunk::new(got(&rt, vec![in alloc; 7u8; 65_537])) {
        Ok(_) => panic!(rt; "taken"),
        Err(ChunkFault::TooLong { bytes }) => same(&rt, &bytes.len(), &65_537),
    }
}

#[test]
fn lists_push_what_they_reserved(rt: HostRuntime) {
    let mut list = NodeList::new(rt.alloc());
    holds(&rt, list.is_empty());
    got(&rt, list.reserve(2));
    list.push(NodeId(7));
    list.push(NodeId(9));
    same(&rt, &list.len(), &2);
    same(&rt, &list.get(0), &Some(&NodeId(7)));
    same(&rt, &list.get(2), &None);
    same_list(
        &rt,
        got(&rt, list.copy()).as_slice(),
        [NodeId(7), NodeId(9)].as_slice(),
    );
    let blocks = BlockList::from_vec(got(&rt, vec![in rt.alloc(); 4, 6]));
    same_list(&rt, blocks.into_vec().as_slice(), [4, 6].as_slice());
}
