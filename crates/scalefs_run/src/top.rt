ghost use Rattle.std.specs.Prelude.{◌≡◌, ◌≤◌, ℕ, List, false, map, string_bytes, IfOk, IfErr, Ok};
ghost use Rattle.std.specs.List.{All};
ghost use Rattle.sfs_base.specs.Ends.{HasRisen};
ghost use Rattle.sfs_dev.specs.Run.{Advances};
ghost use Rattle.script.specs.Phases.{phases_of};
ghost use Rattle.script.specs.Faults.{IsShort};
ghost use Rattle.script.specs.Ready.{LinesMayRun};
ghost use Rattle.scalefs_run.specs.Commands.{ServedWords, ServedCommand};
ghost use Rattle.scalefs_run.specs.Outcome.{IsOf, HasReadFault, reaches_disk};
ghost use Rattle.scalefs_run.specs.Served.{ServedScript, ServedLoad, run_ends, run_told};
ghost use Rattle.words.specs.Words.{MOST_NODES, MOST_ITEMS, MOST_CORES, IsInRange, command_asked};

use crate::checked::check_source;
use crate::image::{make_image, show_image};
use crate::outcome::no_calls;
use crate::refused::{status_of_script, status_of_source, status_of_words};
use crate::scripts::serve_script;
use crate::verified::verify_image;
use crate::writing::Writing;
use crate::{Outcome, Status};
use fmt_super::Layout;
use made_script::made;
use script::{LONGEST_SCRIPT, Script};
use sfs_base::{Gate, Sink, Source, read_all};
use sfs_dev::Disk;
use std::alloc::Global;
use std::sync::Wait;
use std::thread::Threads;
use words::{Command, command_asked};

/// How many nodes `load` may make.
const LOAD_NODES: u32 = 65_536;

/// Does what the words say. `mkfs BLOCKS INODES CORES` or `mkfs BLOCKS INODES CORES SLOTS`, the number of each
/// core's journal slots, makes an empty image on the disk and writes its numbers. `show` recovers the image of the disk and writes the text of its tree. `run` or `run NODES`, the
/// number of new nodes, mounts the image of the disk and runs a script on it: the source gives it, the sink
/// takes the text of the history, and the disk keeps what was flushed. The disk is not touched before the
/// whole script is in the grammar. `load SEED COUNT WORKERS` runs a script that is made of the three numbers, with
/// 65,536 new nodes, and writes a line of what it comes to. `check` or `check NODES` recovers the image and checks whether
/// the text from the source is that of a legal history over it. `verify` certifies the image, which is only read, and
/// writes the certificate. In a phase each worker runs in a thread of its own, where one can be started. The gate is a hook for tests, which can hold a
/// core.
pub fn run<R: Threads + Wait + Sync, S: Source, K: Sink, D: Disk + Drop + Sync, G: Gate>(
    rt: &R,
    alloc: Global,
    words: &[String],
    source: &mut S,
    sink: &mut K,
    disk: D,
    gate: &G,
) -> Outcome<D>
    ensures served { ServedWords (command_asked (map string_bytes words.now)) (S.left source.old)
        (run_ends (HasRisen (S.faults source.old) (S.faults source.new)) (HasRisen (K.faults sink.old) (K.faults sink.new))
        (K.written sink.old) (K.written sink.new) (D.view disk) (D.view result.disk))
        (run_told result.status result.history result.turns.items) }
    ensures untouched { reaches_disk result.status ≡ false → result.disk ≡ disk }
    ensures advances { Advances (D.view disk) (D.view result.disk) }
{
    match command_asked(alloc, words) {
        Ok(command) => serve_command(rt, alloc, command, source, sink, disk, gate),
        Err(fault) => no_calls(alloc, status_of_words(fault), disk),
    }
}

// Does a command.
fn serve_command<R: Threads + Wait + Sync, S: Source, K: Sink, D: Disk + Drop + Sync, G: Gate>(
    rt: &R,
    alloc: Global,
    command: Command,
    source: &mut S,
    sink: &mut K,
    disk: D,
    gate: &G,
) -> Outcome<D>
    requires ranges { IsInRange command }
    ensures served { ServedCommand command (S.left source.old)
        (run_ends (HasRisen (S.faults source.old) (S.faults source.new)) (HasRisen (K.faults sink.old) (K.faults sink.new))
        (K.written sink.old) (K.written sink.new) (D.view disk) (D.view result.disk))
        (run_told result.status result.history result.turns.items) }
    ensures untouched { reaches_disk result.status ≡ false → result.disk ≡ disk }
    ensures advances { Advances (D.view disk) (D.view result.disk) }
{
    let mut disk = disk;
    match command {
        Command::Mkfs {
            blocks,
            inodes,
            cores,
            slots,
        } => {
            let layout = Layout {
                blocks,
                inodes,
                cores,
                slots,
            };
            let status = make_image(alloc, &layout, sink, &mut disk);
            no_calls(alloc, status, disk)
        }
        Command::Show => {
            let status = show_image(alloc, sink, &mut disk);
            no_calls(alloc, status, disk)
        }
        Command::Run { nodes } => serve_source(rt, alloc, nodes, source, sink, disk, gate),
        Command::Load {
            seed,
            count,
            workers,
        } => serve_load(rt, alloc, seed, count, workers, sink, disk, gate),
        Command::Check { nodes } => {
            let status = check_source(alloc, nodes, source, sink, &mut disk);
            no_calls(alloc, status, disk)
        }
        Command::Verify => {
            let status = verify_image(alloc, sink, &mut disk);
            no_calls(alloc, status, disk)
        }
    }
}

// Runs the script that the source gives, in which so many nodes may be made.
fn serve_source<R: Threads + Wait + Sync, S: Source, K: Sink, D: Disk + Drop + Sync, G: Gate>(
    rt: &R,
    alloc: Global,
    nodes: u32,
    source: &mut S,
    sink: &mut K,
    disk: D,
    gate: &G,
) -> Outcome<D>
    requires most { nodes ≤ MOST_NODES }
    ensures served { ServedScript nodes (S.left source.old)
        (run_ends (HasRisen (S.faults source.old) (S.faults source.new)) (HasRisen (K.faults sink.old) (K.faults sink.new))
        (K.written sink.old) (K.written sink.new) (D.view disk) (D.view result.disk))
        (run_told result.status result.history result.turns.items) }
    ensures untouched { reaches_disk result.status ≡ false → result.disk ≡ disk }
    ensures advances { Advances (D.view disk) (D.view result.disk) }
{
    match read_script(alloc, source) {
        Ok(script) => serve_script(
            rt,
            alloc,
            nodes,
            &script,
            Writing::History,
            sink,
            disk,
            gate,
        ),
        Err(status) => no_calls(alloc, status, disk),
    }
}

// Runs a made script and writes its line.
fn serve_load<R: Threads + Wait + Sync, K: Sink, D: Disk + Drop + Sync, G: Gate>(
    rt: &R,
    alloc: Global,
    seed: u32,
    count: u32,
    workers: u32,
    sink: &mut K,
    disk: D,
    gate: &G,
) -> Outcome<D>
    requires items { count ≤ MOST_ITEMS }
    requires workers { workers ≤ MOST_CORES }
    ensures served { ServedLoad seed count workers
        (run_ends ⊥ (HasRisen (K.faults sink.old) (K.faults sink.new))
        (K.written sink.old) (K.written sink.new) (D.view disk) (D.view result.disk))
        (run_told result.status result.history result.turns.items) }
    ensures untouched { reaches_disk result.status ≡ false → result.disk ≡ disk }
    ensures advances { Advances (D.view disk) (D.view result.disk) }
{
    let writing = Writing::Load {
        seed,
        count,
        workers,
    };
    match made(alloc, seed, count, workers) {
        Ok(script) => serve_script(rt, alloc, LOAD_NODES, &script, writing, sink, disk, gate),
        Err(_) => no_calls(alloc, Status::NoMemory, disk),
    }
}

// The script that the source gives.
fn read_script<S: Source>(alloc: Global, source: &mut S) -> Result<Script, Status>
    ensures ok { IfOk result (λ phases. (script : List ℕ) × IsOf (S.left source.old) script × IsShort script × (phases_of script ≡ Ok phases)) }
    ensures ready { IfOk result (All LinesMayRun) }
    ensures err { IfErr result (λ status. (script : List ℕ) × IsOf (S.left source.old) script × HasReadFault script (HasRisen (S.faults source.old) (S.faults source.new)) status) }
{
    let text = match read_all(alloc, source, LONGEST_SCRIPT as u64) {
        Ok(text) => text,
        Err(fault) => return Err(status_of_source(fault)),
    };
    match script::read(alloc, &text) {
        Ok(script) => Ok(script),
        Err(fault) => Err(status_of_script(fault)),
    }
}
