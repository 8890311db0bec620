// A script is run on the image of a disk, and what is due of it is written.
ghost use Rattle.std.specs.Prelude.{◌≡◌, ◌≤◌, ℕ, IfOk, List, true};
ghost use Rattle.std.specs.List.{All};
ghost use Rattle.sfs_base.specs.Ends.{HasRisen};
ghost use Rattle.sfs_dev.specs.Run.{Advances};
ghost use Rattle.script.specs.Ready.{LinesMayRun};
ghost use Rattle.script.specs.declared.commands.Line.{Line};
ghost use Rattle.words.specs.Words.{MOST_NODES};
ghost use Rattle.scalefs_run.specs.Due.{judged_status};
ghost use Rattle.scalefs_run.specs.Outcome.{HasHistory, HasText, IsWriteStatus, reaches_disk};
ghost use Rattle.scalefs_run.specs.Ran.{HasCalls};
ghost use Rattle.scalefs_run.specs.Served.{Served, run_ends, run_told};
ghost use Rattle.scalefs_run.specs.Writing.{text_due};

use crate::image::status_of_recovery;
use crate::outcome::no_calls;
use crate::running::{Ran, run_begun};
use crate::without_core::{cores_of, first_worker_without_core};
use crate::writing::{Writing, write_end};
use crate::{Outcome, Status};
use mount_begin::mount;
use script::Script;
use sfs_base::{Gate, Sink};
use sfs_dev::Disk;
use std::alloc::Global;
use std::sync::Wait;
use std::thread::Threads;

/// Mounts the disk, runs the phases on a volume of as many cores as the image has, and writes what is due of their history, where there is a core for
/// each worker.
pub fn serve_script<R: Threads + Wait + Sync, K: Sink, D: Disk + Drop + Sync, G: Gate>(
    rt: &R,
    alloc: Global,
    nodes: u32,
    script: &Script,
    writing: Writing,
    sink: &mut K,
    disk: D,
    gate: &G,
) -> Outcome<D>
    requires most { nodes ≤ MOST_NODES }
    requires ready { All LinesMayRun script.now }
    ensures served { Served (λ judged. judged_status judged script.now) nodes script.now writing
        (run_ends ⊥ (HasRisen (K.faults sink.old) (K.faults sink.new))
        (K.written sink.old) (K.written sink.new) (D.view disk) (D.view result.disk))
        (run_told result.status result.history result.turns.items) }
    ensures reached { reaches_disk result.status ≡ true }
    ensures advances { Advances (D.view disk) (D.view result.disk) }
{
    let mut disk = disk;
    let begun = match mount(alloc, &mut disk, nodes) {
        Ok(begun) => begun,
        Err(fault) => {
            let status = status_of_recovery(fault);
            return no_calls(alloc, status, disk);
        }
    };
    let have = cores_of(&begun.layout);
    if let Some(asked) = first_worker_without_core(script.phases(), have) {
        let status = Status::TooManyWorkers {
            asked: u32::from(asked),
            have: u32::from(have),
        };
        return no_calls(alloc, status, disk);
    }
    match run_begun(
        rt,
        alloc,
        disk,
        begun,
        nodes,
        script.phases(),
        writing,
        gate,
    ) {
        Ok(ran) => end_run(alloc, ran, sink),
        Err(disk) => no_calls(alloc, Status::NoMemory, disk),
    }
}

// Writes what is due of phases that were run, unless memory was refused among them.
fn end_run<K: Sink, D>(alloc: Global, ran: Ran<D>, sink: &mut K) -> Outcome<D>
    ensures status { IsWriteStatus (HasRisen (K.faults sink.old) (K.faults sink.new)) result.status }
    ensures text { (text : List ℕ) → IfOk ran.ending (λ ending. text_due ending ran.history ≡ text) → HasText text (K.written sink.old) (K.written sink.new) result.status }
    ensures calls { (phases : List (List Line)) → HasCalls phases ran.history ran.ended → HasHistory phases ran.history result.status }
    ensures history { result.history ≡ ran.history }
    ensures turns { result.turns ≡ ran.turns }
    ensures disk { result.disk ≡ ran.disk }
{
    let Ran {
        ended,
        ending,
        history,
        turns,
        disk,
    } = ran;
    let status = match ended {
        Ok(()) => write_end(alloc, ending, &history, sink),
        Err(_) => Status::NoMemory,
    };
    Outcome {
        status,
        history,
        turns,
        disk,
    }
}
