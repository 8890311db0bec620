// `verify`: a verdict on the image of a disk, told by a status.
ghost use Rattle.std.specs.Prelude.{◌≡◌, true};
ghost use Rattle.sfs_base.specs.Ends.{HasRisen};
ghost use Rattle.sfs_dev.specs.Run.{Advances};
ghost use Rattle.scalefs_run.specs.Outcome.{reaches_disk};
ghost use Rattle.scalefs_run.specs.Verified.{status_of_verdict, VerifiesImage};

use crate::{ImageFault, Status};
use image_verdict::{Verdict, write_verdict};
use sfs_base::Sink;
use sfs_dev::Disk;
use std::alloc::Global;

/// Certifies the image of a disk, accepts the certificate and writes it, or writes the first inode that
/// breaks a rule, with its record. The disk is only read, and needs no recovery before it.
pub fn verify_image<K: Sink, D: Disk>(alloc: Global, sink: &mut K, disk: &mut D) -> Status
    ensures verifies { VerifiesImage (HasRisen (K.faults sink.old) (K.faults sink.new)) (K.written sink.old) (K.written sink.new) (D.view disk.old) (D.view disk.new) result }
    ensures reaches { reaches_disk result ≡ true }
    ensures advances { Advances (D.view disk.old) (D.view disk.new) }
{
    status_of_verdict(write_verdict(alloc, sink, disk))
}

// The status that tells a verdict.
fn status_of_verdict(verdict: Verdict) -> Status
    ensures is { result ≡ status_of_verdict verdict }
    ensures reaches { reaches_disk result ≡ true }
{
    match verdict {
        Verdict::Sound => Status::Done,
        Verdict::BadSuper { at } => Status::BadImage {
            fault: ImageFault::Super { at },
        },
        Verdict::BadJournal { core, slot, at } => Status::BadImage {
            fault: ImageFault::Journal { core, slot, at },
        },
        Verdict::BadImage { inode, rule } => Status::BadImage {
            fault: ImageFault::Tree { inode, rule },
        },
        Verdict::NotAccepted => Status::NotAccepted,
        Verdict::WriteFault => Status::WriteFault,
        Verdict::DiskFailed => Status::DiskFault,
        Verdict::NoMemory => Status::NoMemory,
    }
}
