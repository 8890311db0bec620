//! What is proved of what cores bring as they reserve: each function's contract is a law.
ghost use Rattle.reserve_laws.specs.Fits.{RecordsFit, ToldReserve};
ghost use Rattle.reserve_laws.specs.Looks.{CoresOpen, LooksBring};
ghost use Rattle.reserve_laws.specs.Olds.{NumbersRiseOn, OldsAreLeft};
ghost use Rattle.reserve_laws.specs.OwnFile.{OwnFilesBring, OwnFilesOpen};
ghost use Rattle.reserve_laws.specs.Plans.{PlansBring};

/// An fsync that was planned from what it gathered brings what is made of that.
pub fn plans_bring()
    ensures { PlansBring }
{}

/// So does one whose core knows enough, whatever other commits are open.
pub fn looks_bring()
    ensures { LooksBring }
{}

/// The pair of such a core is open beside the volume.
pub fn cores_open()
    ensures { CoresOpen }
{}

/// So its fsync may be open beside those that are.
pub fn told_reserve()
    ensures { ToldReserve }
{}

/// An own file's fsync brings its plan.
pub fn own_files_bring()
    ensures { OwnFilesBring }
{}

/// And its pair is open beside the volume.
pub fn own_files_open()
    ensures { OwnFilesOpen }
{}

/// So a record fits what its books are kept from, where cores tell so at its places and the map goes along it.
pub fn records_fit()
    ensures { RecordsFit }
{}

/// What a core saw of a node, left by the last of those that are done and hold it, is what memory keeps of the volume.
pub fn olds_are_left()
    ensures { OldsAreLeft }
{}

/// Numbers go on rising along those that are done and share a node.
pub fn numbers_rise_on()
    ensures { NumbersRiseOn }
{}
