// An image is certified, the certificate is accepted, and its text is written; or that of the first fault.
ghost use Rattle.sfs_base.specs.Ends.{HasRisen};
ghost use Rattle.sfs_dev.specs.Run.{Advances};
ghost use Rattle.sfs_dev.specs.Steps.{IfTold};
ghost use Rattle.image_check.specs.Valid.{IsValid};
ghost use Rattle.image_verdict.specs.Texts.{certificate_text};
ghost use Rattle.image_verdict.specs.Verdicts.{EndsWriting, IsVerdictOn, WritesAccepted, WritesFault};

use crate::text::{broken_text, certificate_text};
use image_check::{AcceptFault, Certificate, VerifyFault, accept, certify};
use sfs_base::{Sink, write_all};
use sfs_dev::Disk;
use std::alloc::Global;

/// How a verdict on an image ended.
#[derive(Clone, Copy, Debug, PartialEq, Eq)]
pub enum Verdict {
    /// The image is sound: its certificate was accepted and written.
    Sound,
    /// The superblock is wrong at this byte.
    BadSuper { at: u32 },
    /// An open journal slot is wrong at this byte.
    BadJournal { core: u8, slot: u8, at: u32 },
    /// This inode breaks this rule, and its record was written.
    BadImage { inode: u32, rule: u8 },
    /// The certificate was not accepted.
    NotAccepted,
    /// The sink failed.
    WriteFault,
    /// A read of the disk failed.
    DiskFailed,
    NoMemory,
}

/// Certifies the image of a disk, accepts the certificate and writes it; or writes the first inode that
/// breaks a rule, with its record. The disk is only read.
pub fn write_verdict<K: Sink, D: Disk>(alloc: Global, sink: &mut K, disk: &mut D) -> Verdict
    ensures verdict { IsVerdictOn (HasRisen (K.faults sink.old) (K.faults sink.new)) (K.written sink.old) (K.written sink.new)
        (D.view disk.old) (D.view disk.new) result }
    ensures advances { Advances (D.view disk.old) (D.view disk.new) }
{
    match certify(alloc, disk) {
        Ok(cert) => write_accepted(alloc, &cert, sink, disk),
        Err(fault) => write_fault(alloc, fault, sink),
    }
}

// Writes a certificate, where it is accepted.
fn write_accepted<K: Sink, D: Disk>(
    alloc: Global,
    cert: &Certificate,
    sink: &mut K,
    disk: &mut D,
) -> Verdict
    requires valid { IfTold (D.view disk.old).content (λ image. IsValid image cert.now) }
    ensures verdict { IsVerdictOn (HasRisen (K.faults sink.old) (K.faults sink.new)) (K.written sink.old) (K.written sink.new)
        (D.view disk.old) (D.view disk.new) result }
    ensures advances { Advances (D.view disk.old) (D.view disk.new) }
{
    match accept(alloc, disk, cert) {
        Ok(accepted) => write_if_accepted(alloc, cert, accepted, sink),
        Err(AcceptFault::DiskFailed) => Verdict::DiskFailed,
        Err(AcceptFault::NoMemory) => Verdict::NoMemory,
    }
}

// Writes a certificate, if it was accepted.
fn write_if_accepted<K: Sink>(
    alloc: Global,
    cert: &Certificate,
    accepted: bool,
    sink: &mut K,
) -> Verdict
    ensures { WritesAccepted (certificate_text cert.now) (HasRisen (K.faults sink.old) (K.faults sink.new)) (K.written sink.old) (K.written sink.new) accepted result }
{
    if !accepted {
        return Verdict::NotAccepted;
    }
    match certificate_text(alloc, cert) {
        Ok(text) => write_text(sink, &text, Verdict::Sound),
        Err(_) => Verdict::NoMemory,
    }
}

// Writes the inode that breaks a rule, if the fault is one; of other faults nothing.
fn write_fault<K: Sink>(alloc: Global, fault: VerifyFault, sink: &mut K) -> Verdict
    ensures { WritesFault fault (HasRisen (K.faults sink.old) (K.faults sink.new)) (K.written sink.old) (K.written sink.new) result }
{
    match fault {
        VerifyFault::DiskFailed => Verdict::DiskFailed,
        VerifyFault::BadSuper { at } => Verdict::BadSuper { at },
        VerifyFault::BadJournal { core, slot, at } => Verdict::BadJournal { core, slot, at },
        VerifyFault::BadImage { inode, rule, bytes } => {
            match broken_text(alloc, inode, rule, &bytes) {
                Ok(text) => write_text(sink, &text, Verdict::BadImage { inode, rule }),
                Err(_) => Verdict::NoMemory,
            }
        }
        VerifyFault::NoMemory => Verdict::NoMemory,
    }
}

// Writes a text, behind which a verdict comes.
fn write_text<K: Sink>(sink: &mut K, text: &[u8], verdict: Verdict) -> Verdict
    ensures { EndsWriting text.now verdict (HasRisen (K.faults sink.old) (K.faults sink.new)) (K.written sink.old) (K.written sink.new) result }
{
    match write_all(sink, text) {
        Ok(()) => verdict,
        Err(_) => Verdict::WriteFault,
    }
}
