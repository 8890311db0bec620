//! What is proved: each function's contract is a law.

// What is proved of the definitions: each function's contract is a law.
ghost use Rattle.landing_laws.specs.Made.{DraftsAreMade};
ghost use Rattle.landing_laws.specs.Telling.{LandedMayBeTold};
ghost use Rattle.landing_laws.specs.Written.{RenewedAreWritten};

/// What an fsync planned by what it caught and copied is what its core made.
pub fn drafts_are_made()
    ensures { DraftsAreMade }
{}

/// The renewed values of the nodes that a core holds are what a commit writes that holds exactly these.
pub fn renewed_are_written()
    ensures { RenewedAreWritten }
{}

/// A core may tell a durable commit of nodes whose flushed values it holds.
pub fn landed_may_be_told()
    ensures { LandedMayBeTold }
{}

// What is proved of commits that became durable: each function's contract is a law.
ghost use Rattle.landing_laws.specs.Landed.{FsyncsHaveLanded};
ghost use Rattle.landing_laws.specs.Told.{LandedAreTold};

/// A planned fsync whose commit became durable may be told.
pub fn fsyncs_have_landed()
    ensures { FsyncsHaveLanded }
{}

/// A run that tells it tells what its core made.
pub fn landed_are_told()
    ensures { LandedAreTold }
{}
