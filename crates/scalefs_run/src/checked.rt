// `check`: a history's text is read from the source, and checked over the image of the disk.
ghost use Rattle.std.specs.Prelude.{◌≡◌, ◌≤◌, ◌<◌, length, true, false, Some, string_bytes, IfOk};
ghost use Rattle.sfs_base.specs.Ends.{HasRisen};
ghost use Rattle.sfs_dev.specs.Run.{Advances};
ghost use Rattle.tree_laws.specs.Sound.{IsSound};
ghost use Rattle.history_check.specs.declared.checking.TheConstants.{LONGEST_HISTORY as MOST_BYTES};
ghost use Rattle.scalefs_run.specs.Checked.{legal_text, ChecksHistory, ChecksOver};
ghost use Rattle.scalefs_run.specs.Outcome.{HasText, IsWriteStatus, reaches_disk};
ghost use Rattle.scalefs_run.specs.Served.{run_ends};

use crate::Status;
use crate::image::{status_of_recovery, write_text};
use crate::refused::status_of_source;
use crate::without_core::cores_of;
use history_check::{CheckFault, LONGEST_HISTORY, check};
use mount_begin::{Mounted, mount};
use sfs_base::{NoMemory, Sink, Source, read_all};
use sfs_dev::Disk;
use sfs_tree::Tree;
use std::alloc::Global;

/// Reads a history's text from the source, recovers the image of the disk, in whose tree `nodes` new nodes
/// may be made, shared among the cores, and checks whether some legal run that begins with this tree has the
/// text. The line `legal N entries` is written where it is so. A text of more than 268,435,456 bytes is
/// refused before the disk is touched, and a refused image is not written to.
pub fn check_source<S: Source, K: Sink, D: Disk>(
    alloc: Global,
    nodes: u32,
    source: &mut S,
    sink: &mut K,
    disk: &mut D,
) -> Status
    requires most { nodes ≤ 65536 }
    ensures checks { ChecksHistory nodes (S.left source.old)
        (run_ends (HasRisen (S.faults source.old) (S.faults source.new)) (HasRisen (K.faults sink.old) (K.faults sink.new))
        (K.written sink.old) (K.written sink.new) (D.view disk.old) (D.view disk.new)) result }
    ensures untouched { reaches_disk result ≡ false → disk.new ≡ disk.old }
    ensures advances { Advances (D.view disk.old) (D.view disk.new) }
{
    match read_all(alloc, source, LONGEST_HISTORY as u64) {
        Ok(text) => check_text(alloc, nodes, &text, sink, disk),
        Err(fault) => status_of_source(fault),
    }
}

// The same of a text that was read.
fn check_text<K: Sink, D: Disk>(
    alloc: Global,
    nodes: u32,
    text: &[u8],
    sink: &mut K,
    disk: &mut D,
) -> Status
    requires most { nodes ≤ 65536 }
    requires short { length text.now ≤ MOST_BYTES }
    ensures checks { ChecksHistory nodes (Some text.now)
        (run_ends ⊥ (HasRisen (K.faults sink.old) (K.faults sink.new))
        (K.written sink.old) (K.written sink.new) (D.view disk.old) (D.view disk.new)) result }
    ensures reached { reaches_disk result ≡ true }
    ensures advances { Advances (D.view disk.old) (D.view disk.new) }
{
    match mount(alloc, disk, nodes) {
        Ok(mounted) => {
            let Mounted { layout, tree, .. } = mounted;
            let cores = cores_of(&layout);
            check_over(alloc, tree, cores, text, sink)
        }
        Err(fault) => status_of_recovery(fault),
    }
}

// Checks a text over a tree of so many cores.
fn check_over<K: Sink>(alloc: Global, tree: Tree, cores: u8, text: &[u8], sink: &mut K) -> Status
    requires sound { IsSound tree }
    requires cores { cores ≡ length tree.made }
    requires short { length text.now ≤ MOST_BYTES }
    ensures { ChecksOver tree text.now (HasRisen (K.faults sink.old) (K.faults sink.new)) (K.written sink.old) (K.written sink.new) result }
{
    match check(alloc, tree, cores, text) {
        Ok(count) => write_legal(alloc, count, sink),
        Err(CheckFault::WrongLine { line }) => Status::WrongHistory { line },
        Err(CheckFault::NoMemory) => Status::NoMemory,
    }
}

// Writes of a legal text how many entries it tells of.
fn write_legal<K: Sink>(alloc: Global, count: u64, sink: &mut K) -> Status
    ensures status { IsWriteStatus (HasRisen (K.faults sink.old) (K.faults sink.new)) result }
    ensures text { HasText (legal_text count) (K.written sink.old) (K.written sink.new) result }
{
    let Ok(line) = legal_line(alloc, count) else {
        return Status::NoMemory;
    };
    write_text(sink, line.as_bytes())
}

// The line of a legal text.
fn legal_line(alloc: Global, count: u64) -> Result<String, NoMemory>
    ensures { IfOk result (λ line. string_bytes line ≡ legal_text count) }
{
    Ok(format!(in alloc; "legal {count} entries\n")?)
}
