ghost use Rattle.std.specs.Prelude.{◌≡◌, ◌≢◌, ℕ, Ok, IfOk, IfErr};
ghost use Rattle.std.specs.IoError.{error_kind};
ghost use Rattle.sfs_base.specs.StdEnds.{source_left, source_faults, source_inner, sink_written, sink_faults, sink_inner};

use crate::{Failed, Sink, Source};
use std::io::{self, ErrorKind, Read, Write};

/// How often a call that was interrupted is tried.
const TRIES: u32 = 1024;

/// How one call of a reader or a writer of std ended.
#[derive(Drop)]
enum Attempt {
    Moved(usize),
    Interrupted,
    Broken,
}

/// A source over a reader of std. It tells the bytes that the reader tells. An error of the reader
/// is a fault, but for an interruption, after which it reads again, 1,024 times in one call at most.
#[derive(Drop)]
pub struct StdSource<R> {
    inner: R,
    faults: u64,
}

impl<R> StdSource<R> {
    /// A source that reads from `inner`, with no fault yet.
    pub fn new(inner: R) -> Self
        ensures inner { source_inner result ≡ inner }
        ensures faults { source_faults result ≡ 0 }
    {
        StdSource { inner, faults: 0 }
    }
}

impl<R: Read> Source for StdSource<R> {
    ghost left = { source_left R.remaining };

    ghost faults = { source_faults };

    fn read(&mut self, into: &mut [u8]) -> Result<usize, Failed> {
        for _ in 0..TRIES {
            match outcome_of(self.inner.read(into)) {
                Attempt::Moved(count) => return Ok(count),
                Attempt::Interrupted => {}
                Attempt::Broken => break,
            }
        }
        self.faults = self.faults.saturating_add(1);
        Err(Failed)
    }

    fn faults(&self) -> u64 {
        self.faults
    }
}

/// A sink over a writer of std. It tells the bytes that the writer tells. An error of the writer is
/// a fault, and so is a write that takes nothing, but for an interruption, after which it writes
/// again, 1,024 times in one call at most.
#[derive(Drop)]
pub struct StdSink<W> {
    inner: W,
    faults: u64,
}

impl<W> StdSink<W> {
    /// A sink that writes to `inner`, with no fault yet.
    pub fn new(inner: W) -> Self
        ensures inner { sink_inner result ≡ inner }
        ensures faults { sink_faults result ≡ 0 }
    {
        StdSink { inner, faults: 0 }
    }
}

impl<W: Write> Sink for StdSink<W> {
    ghost written = { sink_written W.contents };

    ghost faults = { sink_faults };

    fn write(&mut self, from: &[u8]) -> Result<usize, Failed> {
        for _ in 0..TRIES {
            match outcome_of(self.inner.write(from)) {
                Attempt::Moved(0) => break,
                Attempt::Moved(count) => return Ok(count),
                Attempt::Interrupted => {}
                Attempt::Broken => break,
            }
        }
        self.faults = self.faults.saturating_add(1);
        Err(Failed)
    }

    fn faults(&self) -> u64 {
        self.faults
    }
}

// How a call ended: it moved bytes, it was interrupted and may be made again, or it failed.
fn outcome_of(ended: io::Result<usize>) -> Attempt
    ensures moved { IfOk ended (λ count. result ≡ Attempt.Moved count) }
    ensures nothing_else_moved { (count : ℕ) → result ≡ Attempt.Moved count → ended ≡ Ok count }
    ensures interrupted { IfErr ended (λ error. error_kind error ≡ ErrorKind.Interrupted → result ≡ Attempt.Interrupted) }
    ensures broken { IfErr ended (λ error. error_kind error ≢ ErrorKind.Interrupted → result ≡ Attempt.Broken) }
{
    match ended {
        Ok(count) => Attempt::Moved(count),
        Err(error) => {
            if error.kind() == ErrorKind::Interrupted {
                Attempt::Interrupted
            } else {
                Attempt::Broken
            }
        }
    }
}
