// What is proved of how cores and their pens agree on fsyncs: each function's contract is a law, for journals over a disk.
ghost use Rattle.flush_agrees.specs.Closing.{AgreementsEnd, StampsAreGiven};
ghost use Rattle.flush_agrees.specs.Laws.{AgreeingCoresTell, AnswersKeepServed, FlushesAgree, NewPairsAgree, OtherCallsKeep, RefusedMemoryKeepsServed, SameFsyncsKeepServed};

use sfs_dev::Disk;

/// A core that has made no call agrees with a new pen on no fsync.
pub fn new_pairs_agree<D: Disk>(disk: &D)
    ensures { NewPairsAgree D }
{}

/// They agree as before where the core goes on without an fsync that is served.
pub fn other_calls_keep<D: Disk>(disk: &D)
    ensures { OtherCallsKeep D }
{}

/// So it goes on by a call that is no fsync, or that is refused.
pub fn answers_keep_served()
    ensures { AnswersKeepServed }
{}

/// And where memory for a call was wanting.
pub fn refused_memory_keeps_served()
    ensures { RefusedMemoryKeepsServed }
{}

/// So it does where its fsyncs are those of before.
pub fn same_fsyncs_keep_served()
    ensures { SameFsyncsKeepServed }
{}

/// Each commit that an agreeing core has told has a number that its pen reserved, as an fsync asks.
pub fn agreeing_cores_tell<D: Disk>(disk: &D)
    ensures { AgreeingCoresTell D }
{}

/// Behind an fsync they agree on the same fsyncs, or on one more.
pub fn flushes_agree<D: Disk>(disk: &D)
    ensures { FlushesAgree D }
{}

/// In the end they agree on all that was called, told and noted.
pub fn agreements_end<D: Disk>(disk: &D)
    ensures { AgreementsEnd D }
{}

/// There are stamps by numbers for the fsyncs of all cores, each number that was made with that of its fsync.
pub fn stamps_are_given<D: Disk>(disk: &D)
    ensures { StampsAreGiven D }
{}
