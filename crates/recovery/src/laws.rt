// What is proved of the definitions: each function's contract is a law.
ghost use Rattle.recovery.specs.Mkfs.{JustMadeHasRootAlone};

/// An image that is just made has its layout and the root alone.
pub fn just_made_has_root_alone()
    ensures { JustMadeHasRootAlone }
{}
