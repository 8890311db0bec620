// What is proved of how cores and their pens agree: each function's contract is a law.
ghost use Rattle.pen_laws.specs.Laws.{NewCoresAgree, AgreementLasts, OtherCallsAgree, FsyncsAgree, AgreementsClose};

/// A core that has made no call agrees with a pen that has no fsync.
pub fn new_cores_agree()
    ensures { NewCoresAgree }
{}

/// They agree however much more either has seen.
pub fn agreement_lasts()
    ensures { AgreementLasts }
{}

/// They agree behind a call that is no fsync, or one that is refused or has no turn.
pub fn other_calls_agree()
    ensures { OtherCallsAgree }
{}

/// They agree behind an fsync whose turns go one of the ways with its answer.
pub fn fsyncs_agree()
    ensures { FsyncsAgree }
{}

/// In the end they agree on the whole history and the whole record of turns.
pub fn agreements_close()
    ensures { AgreementsClose }
{}
