// The statuses of calls that were refused: for their words, their source or their script.
ghost use Rattle.std.specs.Prelude.{◌≡◌};
ghost use Rattle.scalefs_run.specs.Outcome.{status_of_words, status_of_source, status_of_script};

use crate::Status;
use script::ScriptFault;
use sfs_base::{Measure, ReadAllFault};
use words::WordsFault;

/// The status of a call whose words were refused.
pub fn status_of_words(fault: WordsFault) -> Status
    ensures { result ≡ status_of_words fault }
{
    match fault {
        WordsFault::BadWords { place } => Status::BadWords { place },
        WordsFault::NoMemory => Status::NoMemory,
    }
}

/// The status of a call whose source could not be read.
pub fn status_of_source(fault: ReadAllFault) -> Status
    ensures { result ≡ status_of_source fault }
{
    match fault {
        ReadAllFault::ReadFault => Status::ReadFault,
        ReadAllFault::TooLong => Status::TooLong {
            measure: Measure::Bytes,
        },
        ReadAllFault::NoMemory => Status::NoMemory,
    }
}

/// The status of a run whose script was refused.
pub fn status_of_script(fault: ScriptFault) -> Status
    ensures { result ≡ status_of_script fault }
{
    match fault {
        ScriptFault::TooLong { measure } => Status::TooLong { measure },
        ScriptFault::BadLine { line } => Status::BadScript { line },
        ScriptFault::NoMemory => Status::NoMemory,
    }
}
