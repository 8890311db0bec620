// Sources and sinks in memory, and the calls that read and write all.
use crate::helpers::{got, same, same_list};
use sfs_base::{
    BytesSink, BytesSource, ReadAllFault, Sink, Source, StdSink, StdSource, SureSource, WriteFault,
    read_all, write_all,
};
use std::alloc::Global;
use std::io::{self, ErrorKind, Read, Write};
use std::process::Abort;

// Bytes 0 to 250, again and again.
fn pattern(rt: &impl Abort, alloc: Global, count: u32) -> Vec<u8> {
    let mut bytes = Vec::new(alloc);
    for i in 0..count {
        got(rt, bytes.push((i % 251) as u8));
    }
    bytes
}

// A reader that is interrupted before each call that gives a byte.
#[derive(Drop)]
struct Stutters {
    bytes: Vec<u8>,
    ready: bool,
}

impl Read for Stutters {
    fn read(&mut self, buf: &mut [u8]) -> io::Result<usize> {
        self.ready = !self.ready;
        if self.ready {
            return Err(ErrorKind::Interrupted.into());
        }
        match (buf.first_mut(), self.bytes.pop()) {
            (Some(to), Some(byte)) => {
                *to = byte;
                Ok(1)
            }
            _ => Ok(0),
        }
    }
}

// A writer that takes one byte a call, is interrupted before each, and is full after so many.
#[derive(Drop)]
struct Sips {
    bytes: Vec<u8>,
    room: usize,
    ready: bool,
}

impl Write for Sips {
    fn write(&mut self, buf: &[u8]) -> io::Result<usize> {
        self.ready = !self.ready;
        if self.ready {
            return Err(ErrorKind::Interrupted.into());
        }
        if self.bytes.len() == self.room {
            return Err(ErrorKind::StorageFull.into());
        }
        match buf.first() {
            Some(byte) if self.bytes.push(*byte).is_ok() => Ok(1),
            _ => Ok(0),
        }
    }

    fn flush(&mut self) -> io::Result<()> {
        Ok(())
    }
}

// Asserts why a source can't be read whole.
fn assert_refused<S: Source>(
    rt: &impl Abort,
    alloc: Global,
    source: &mut S,
    most: u64,
    due: ReadAllFault,
) {
    match read_all(alloc, source, most) {
        Err(fault) => same(rt, &fault, &due),
        Ok(_) => panic!(rt; "taken"),
    }
}

#[test]
fn a_source_is_read_to_its_end(rt: HostRuntime) {
    let alloc = rt.alloc();
    let bytes = pattern(&rt, alloc, 40_000);
    let mut source = BytesSource::new(got(&rt, bytes.clone()), Vec::new(alloc));
    same_list(
        &rt,
        got(&rt, read_all(alloc, &mut source, 40_000)).as_slice(),
        bytes.as_slice(),
    );
    same(&rt, &source.faults(), &0);
    let mut source = SureSource::new(got(&rt, bytes.clone()));
    same_list(
        &rt,
        got(&rt, read_all(alloc, &mut source, 40_000)).as_slice(),
        bytes.as_slice(),
    );
    same(&rt, &got(&rt, read_all(alloc, &mut source, 0)).len(), &0);
}

#[test]
fn a_source_is_too_long_or_fails(rt: HostRuntime) {
    let alloc = rt.alloc();
    let mut source = SureSource::new(pattern(&rt, alloc, 40_000));
    assert_refused(&rt, alloc, &mut source, 39_999, ReadAllFault::TooLong);
    let mut source = BytesSource::new(pattern(&rt, alloc, 40_000), got(&rt, vec![in alloc; 1]));
    assert_refused(&rt, alloc, &mut source, 40_000, ReadAllFault::ReadFault);
    same(&rt, &source.faults(), &1);
}

#[test]
fn a_sink_takes_all_or_fails(rt: HostRuntime) {
    let mut sink = BytesSink::new(rt.alloc(), got(&rt, vec![in rt.alloc(); 2]));
    got(&rt, sink.reserve(100));
    same(&rt, &write_all(&mut sink, b"hello".as_slice()), &Ok(()));
    same(&rt, &write_all(&mut sink, b"".as_slice()), &Ok(()));
    same(&rt, &write_all(&mut sink, b"you".as_slice()), &Ok(()));
    same(
        &rt,
        &write_all(&mut sink, b"no".as_slice()),
        &Err(WriteFault { taken: 0 }),
    );
    same_list(&rt, sink.bytes(), b"helloyou".as_slice());
    same(&rt, &sink.faults(), &1);
}

#[test]
fn an_interrupted_reader_is_read_to_its_end(rt: HostRuntime) {
    let alloc = rt.alloc();
    let mut backwards = Vec::new(alloc);
    got(&rt, backwards.extend_from_slice(b"olleh"));
    let mut source = StdSource::new(Stutters {
        bytes: backwards,
        ready: false,
    });
    same_list(
        &rt,
        got(&rt, read_all(alloc, &mut source, 5)).as_slice(),
        b"hello".as_slice(),
    );
    same(&rt, &source.faults(), &0);
}

#[test]
fn a_writer_of_one_byte_a_call_takes_all_or_fails(rt: HostRuntime) {
    let mut sink = StdSink::new(Sips {
        bytes: Vec::new(rt.alloc()),
        room: 7,
        ready: false,
    });
    same(&rt, &write_all(&mut sink, b"hello".as_slice()), &Ok(()));
    same(&rt, &sink.faults(), &0);
    same(
        &rt,
        &write_all(&mut sink, b"you".as_slice()),
        &Err(WriteFault { taken: 2 }),
    );
    same(&rt, &sink.faults(), &1);
}
