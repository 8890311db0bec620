// `mkfs` and `show`: an image is made on a disk, or the one that is there is recovered; then its text is
// written.
ghost use Rattle.std.specs.Prelude.{◌≡◌, ◌≤◌, true, false, string_bytes, IfOk};
ghost use Rattle.sfs_base.specs.Ends.{HasRisen};
ghost use Rattle.sfs_dev.specs.Run.{Advances};
ghost use Rattle.sfs_image.specs.Super.{InRange, IsLayout, data_start};
ghost use Rattle.tree_laws.specs.Sound.{IsSound};
ghost use Rattle.script.specs.TreeTexts.{tree_text};
ghost use Rattle.scalefs_run.specs.Outcome.{HasText, IsWriteStatus, reaches_disk};
ghost use Rattle.scalefs_run.specs.Image.{has_text, layout_text, status_of_recovery, MakesImage, ShowsImage};

use crate::{ImageFault, Status};
use fmt_super::Layout;
use recovery::{MkfsFault, RecoverFault, Report, mkfs, recover};
use script::tree_text;
use sfs_base::{NoMemory, Sink, write_all};
use sfs_dev::Disk;
use std::alloc::Global;

/// Makes an empty image of this layout on a disk and writes a line of its numbers. A disk that is too small
/// is not touched. After a failure of the sink the image is made.
pub fn make_image<K: Sink, D: Disk>(
    alloc: Global,
    layout: &Layout,
    sink: &mut K,
    disk: &mut D,
) -> Status
    requires { InRange layout.now }
    ensures makes { MakesImage layout.now (HasRisen (K.faults sink.old) (K.faults sink.new)) (K.written sink.old) (K.written sink.new) (D.view disk.old) (D.view disk.new) result }
    ensures untouched { reaches_disk result ≡ false → disk.new ≡ disk.old }
    ensures advances { Advances (D.view disk.old) (D.view disk.new) }
{
    let need = layout.data_at() + 1;
    if layout.blocks < need {
        return Status::TooSmall {
            need,
            have: layout.blocks,
        };
    }
    let have = disk.len();
    if have < layout.blocks {
        return Status::TooSmall {
            need: layout.blocks,
            have,
        };
    }
    make_large_image(alloc, layout, sink, disk)
}

// The same on a disk that is large enough. The line is there before the disk is written to.
fn make_large_image<K: Sink, D: Disk>(
    alloc: Global,
    layout: &Layout,
    sink: &mut K,
    disk: &mut D,
) -> Status
    requires { IsLayout (D.view disk.old).size layout.now }
    ensures makes { MakesImage layout.now (HasRisen (K.faults sink.old) (K.faults sink.new)) (K.written sink.old) (K.written sink.new) (D.view disk.old) (D.view disk.new) result }
    ensures reaches { reaches_disk result ≡ true }
    ensures advances { Advances (D.view disk.old) (D.view disk.new) }
{
    let Ok(line) = layout_line(alloc, layout) else {
        return Status::NoMemory;
    };
    match mkfs(alloc, disk, layout) {
        Ok(()) => write_text(sink, line.as_bytes()),
        Err(MkfsFault::DiskFailed) => Status::DiskFault,
        Err(MkfsFault::NoMemory) => Status::NoMemory,
    }
}

// The line of a layout.
fn layout_line(alloc: Global, layout: &Layout) -> Result<String, NoMemory>
    requires ranges { InRange layout.now }
    requires room { data_start layout.now ≤ layout.now.blocks }
    ensures { IfOk result (λ line. string_bytes line ≡ layout_text layout.now) }
{
    let Layout {
        blocks,
        inodes,
        cores,
        slots: _,
    } = *layout;
    let data = layout.data_at();
    let free = blocks - data;
    Ok(format!(in alloc;
        "blocks {blocks} inodes {inodes} cores {cores} data {data} free {free}\n"
    )?)
}

/// Recovers the image of a disk and writes the text of its tree. A refused image is not written to.
pub fn show_image<K: Sink, D: Disk>(alloc: Global, sink: &mut K, disk: &mut D) -> Status
    ensures shows { ShowsImage (HasRisen (K.faults sink.old) (K.faults sink.new)) (K.written sink.old) (K.written sink.new) (D.view disk.old) (D.view disk.new) result }
    ensures reaches { reaches_disk result ≡ true }
    ensures advances { Advances (D.view disk.old) (D.view disk.new) }
{
    match recover(alloc, disk) {
        Ok(report) => write_tree(alloc, &report, sink),
        Err(fault) => status_of_recovery(fault),
    }
}

/// The status of a recovery that was refused.
pub fn status_of_recovery(fault: RecoverFault) -> Status
    ensures { result ≡ status_of_recovery fault }
{
    match fault {
        RecoverFault::DiskFailed => Status::DiskFault,
        RecoverFault::BadSuper { at } => Status::BadImage {
            fault: ImageFault::Super { at },
        },
        RecoverFault::BadJournal { core, slot, at } => Status::BadImage {
            fault: ImageFault::Journal { core, slot, at },
        },
        RecoverFault::BadImage { inode, rule } => Status::BadImage {
            fault: ImageFault::Tree { inode, rule },
        },
        RecoverFault::NoMemory => Status::NoMemory,
    }
}

// Writes the text of a recovered tree.
fn write_tree<K: Sink>(alloc: Global, report: &Report, sink: &mut K) -> Status
    requires sound { IsSound report.now.tree }
    ensures status { IsWriteStatus (HasRisen (K.faults sink.old) (K.faults sink.new)) result }
    ensures text { HasText (tree_text report.now.tree) (K.written sink.old) (K.written sink.new) result }
{
    let Ok(text) = tree_text(alloc, &report.tree) else {
        return Status::NoMemory;
    };
    write_text(sink, &text)
}

/// Writes a text.
pub fn write_text<K: Sink>(sink: &mut K, text: &[u8]) -> Status
    ensures status { IsWriteStatus (HasRisen (K.faults sink.old) (K.faults sink.new)) result }
    ensures text { HasText text.now (K.written sink.old) (K.written sink.new) result }
    ensures has { has_text result ≡ true }
{
    match write_all(sink, text) {
        Ok(()) => Status::Done,
        Err(_) => Status::WriteFault,
    }
}
