// Runs on a disk in memory, and what they took.
ghost use Rattle.std.specs.Prelude.{◌≤◌};

use scalefs_run::{Outcome, Status, run};
use sfs_base::{BytesSink, BytesSource, NoGate, NoMemory};
use sfs_dev::{Act, Memory};
use std::alloc::Global;
use std::sync::Wait;
use std::thread::Threads;
use tree_laws::{Call, History};

/// What a run took.
#[derive(Clone, Copy)]
pub struct Figures {
    pub calls: u64,
    pub fsyncs: u64,
    /// How many of the fsyncs were answered Ok.
    pub acknowledged: u64,
    pub device_calls: u64,
    pub syncs: u64,
    /// How many bytes were written to the disk.
    pub written: u64,
    /// Whether the script came to its end.
    pub done: bool,
}

// These words.
fn words_of(alloc: Global, words: &[&str]) -> Result<Vec<String>, NoMemory> {
    let mut list = Vec::new(alloc);
    for word in words {
        list.push(String::from_str(alloc, word)?)?;
    }
    Ok(list)
}

/// A disk of so many blocks on which these words made an image, and no device call yet.
pub fn made<R: Threads + Wait + Sync>(
    rt: &R,
    alloc: Global,
    blocks: u32,
    words: &[&str],
) -> Result<Memory, NoMemory>
    requires { blocks ≤ 262144 }
{
    let words = words_of(alloc, words)?;
    let mut source = BytesSource::new(Vec::new(alloc), Vec::new(alloc));
    let mut sink = BytesSink::new(alloc, Vec::new(alloc));
    let disk = Memory::new(alloc, blocks)?;
    let outcome = run(rt, alloc, &words, &mut source, &mut sink, disk, &NoGate);
    outcome.disk.left(alloc, u64::MAX, 0)
}

/// What a script leaves on a disk, with no device call yet.
pub fn left_by<R: Threads + Wait + Sync>(
    rt: &R,
    alloc: Global,
    script: String,
    disk: Memory,
) -> Result<Memory, NoMemory> {
    let words = words_of(alloc, &["run", "65536"])?;
    let mut source = BytesSource::new(script.into_bytes(), Vec::new(alloc));
    let mut sink = BytesSink::new(alloc, Vec::new(alloc));
    let outcome = run(rt, alloc, &words, &mut source, &mut sink, disk, &NoGate);
    outcome.disk.left(alloc, u64::MAX, 0)
}

/// What these words run on a disk takes, with this script as their source.
pub fn measured<R: Threads + Wait + Sync>(
    rt: &R,
    alloc: Global,
    words: &[&str],
    script: String,
    disk: Memory,
) -> Result<Figures, NoMemory> {
    let words = words_of(alloc, words)?;
    let mut source = BytesSource::new(script.into_bytes(), Vec::new(alloc));
    let mut sink = BytesSink::new(alloc, Vec::new(alloc));
    let Outcome {
        status,
        history,
        turns: _,
        disk,
    } = run(rt, alloc, &words, &mut source, &mut sink, disk, &NoGate);
    Ok(figures_of(status, &history, &disk))
}

// What a run took, by its history and the calls of its disk.
fn figures_of(status: Status, history: &History, disk: &Memory) -> Figures {
    let mut figures = Figures {
        calls: history.len(),
        fsyncs: 0,
        acknowledged: 0,
        device_calls: disk.calls().len() as u64,
        syncs: 0,
        written: disk.written().len() as u64,
        done: status == Status::Done,
    };
    let mut cursor = history.first();
    for _ in 0..history.len() {
        if let Some(entry) = history.next(&mut cursor)
            && let Call::Fsync { node: _ } = &entry.call
        {
            figures.fsyncs = figures.fsyncs.saturating_add(1);
            if entry.ack.is_some() {
                figures.acknowledged = figures.acknowledged.saturating_add(1);
            }
        }
    }
    for call in disk.calls() {
        if call.act == Act::Sync {
            figures.syncs = figures.syncs.saturating_add(1);
        }
    }
    figures
}
