ghost use Rattle.std.specs.Prelude.{◌≡◌, [], string_bytes, IfOk};
ghost use Rattle.scalefs_run.specs.Outcome.{status_text};
ghost use Rattle.scalefs_run.specs.declared.outcome.Status.TheVariants.{BadImage};

use sfs_base::{Measure, NoMemory};
use std::alloc::Global;
use tree_laws::{History, Turns};

/// What is wrong in an image.
#[derive(Clone, Copy, Debug, PartialEq, Eq)]
pub enum ImageFault {
    /// A byte of the superblock.
    Super { at: u32 },
    /// A byte of an open journal slot of a core.
    Journal { core: u8, slot: u8, at: u32 },
    /// An inode that breaks a rule.
    Tree { inode: u32, rule: u8 },
}

/// How a call ended.
#[derive(Clone, Copy, Debug, PartialEq, Eq)]
pub enum Status {
    /// All was done, and the whole text was written.
    Done,
    /// A word begins with `-` or the words are no command (place 0), or the number in this place,
    /// from 1, is none of its range.
    BadWords { place: u32 },
    /// The first line outside the grammar, counted from 1.
    BadScript { line: u32 },
    /// The source failed.
    ReadFault,
    /// The sink failed.
    WriteFault,
    /// The disk failed, of a script before its first call.
    DiskFault,
    /// The image is refused, for its first fault.
    BadImage { fault: ImageFault },
    /// Memory was refused.
    NoMemory,
    /// The first line whose worker has no core: the worker, and how many cores there are.
    TooManyWorkers { asked: u32, have: u32 },
    /// The script has too many bytes, or too many lines.
    TooLong { measure: Measure },
    /// An image of so many blocks has no room for its parts, or the disk has none for so many.
    TooSmall { need: u32, have: u32 },
    /// The first line of a history's text, counted from 1, that is not that of a legal history.
    WrongHistory { line: u32 },
    /// The certificate of an image was not accepted: the disk was not the same when it was read again.
    NotAccepted,
}

impl Status {
    ghost use Rattle.scalefs_run.specs.Outcome.{status_number};

    /// The status with which the program ends.
    pub fn number(self) -> u8
        ensures { result ≡ status_number self }
    {
        match self {
            Status::Done => 0,
            Status::BadWords { place: _ } => 2,
            Status::BadScript { line: _ } => 3,
            Status::ReadFault => 4,
            Status::WriteFault => 5,
            Status::DiskFault => 6,
            Status::BadImage { fault: _ } => 7,
            Status::NoMemory => 8,
            Status::TooManyWorkers { asked: _, have: _ } => 9,
            Status::TooLong { measure: _ } => 10,
            Status::TooSmall { need: _, have: _ } => 11,
            Status::WrongHistory { line: _ } => 13,
            Status::NotAccepted => 15,
        }
    }
}

/// The line that the program writes for a status on standard error, without `scalefs: ` at its front.
pub fn status_line(alloc: Global, status: &Status) -> Result<String, NoMemory>
    ensures { IfOk result (λ line. string_bytes line ≡ status_text status.now) }
{
    match *status {
        Status::Done => Ok(String::new(alloc)),
        Status::BadWords { place } => Ok(format!(in alloc; "bad words at {place}")?),
        Status::BadScript { line } => Ok(format!(in alloc; "bad script at line {line}")?),
        Status::ReadFault => Ok(String::from_str(alloc, "cannot read the script")?),
        Status::WriteFault => Ok(String::from_str(alloc, "cannot write the answer")?),
        Status::DiskFault => Ok(String::from_str(alloc, "the disk failed")?),
        Status::BadImage { fault } => fault_line(alloc, fault),
        Status::NoMemory => Ok(String::from_str(alloc, "out of memory")?),
        Status::TooManyWorkers { asked, have } => Ok(format!(in alloc;
            "worker {asked} of {have}"
        )?),
        Status::TooLong { measure: _ } => Ok(String::from_str(alloc, "script too long")?),
        Status::TooSmall { need, have } => Ok(format!(in alloc;
            "too small: need {need} blocks, have {have}"
        )?),
        Status::WrongHistory { line } => Ok(format!(in alloc; "wrong history at line {line}")?),
        Status::NotAccepted => Ok(String::from_str(alloc, "the image changed")?),
    }
}

// The line of a refused image.
fn fault_line(alloc: Global, fault: ImageFault) -> Result<String, NoMemory>
    ensures { IfOk result (λ line. string_bytes line ≡ status_text (BadImage fault)) }
{
    match fault {
        ImageFault::Super { at } => Ok(format!(in alloc; "bad image: superblock byte {at}")?),
        ImageFault::Journal { core, slot, at } => Ok(format!(in alloc;
            "bad image: journal {core} slot {slot} byte {at}"
        )?),
        ImageFault::Tree { inode, rule } => Ok(format!(in alloc;
            "bad image: inode {inode} rule {rule}"
        )?),
    }
}

/// What a call leaves: its status, the calls of its script with their replies, the turns of its commits, and the disk.
#[derive(Drop)]
pub struct Outcome<D> {
    pub status: Status,
    pub history: History,
    pub turns: Turns,
    pub disk: D,
}

/// What a call leaves that ends with a status and has made no call of a script.
pub fn no_calls<D>(alloc: Global, status: Status, disk: D) -> Outcome<D>
    ensures status { result.status ≡ status }
    ensures history { result.history ≡ [] }
    ensures turns { result.turns.items ≡ [] }
    ensures disk { result.disk ≡ disk }
{
    Outcome {
        status,
        history: History::new(alloc),
        turns: Turns::new(alloc),
        disk,
    }
}
