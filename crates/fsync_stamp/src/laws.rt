// What is proved of an fsync that waits: each function's contract is a law.
ghost use Rattle.fsync_stamp.specs.Stamping.{WaitingLasts, AnswersEndWaiting};

/// A core may hold, tell, look and let go while its fsync waits: it waits on.
pub fn waiting_lasts()
    ensures { WaitingLasts }
{}

/// A core whose fsync waited and has its answer has made the call, and is between two calls.
pub fn answers_end_waiting()
    ensures { AnswersEndWaiting }
{}
