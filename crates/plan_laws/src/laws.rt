// What is proved of the definitions: each function's contract is a law.
ghost use Rattle.plan_laws.specs.Laws.{LiveFilesAreWritten, PlansLeadToCuts};

/// The plan of an fsync leads from the tree at the cut to the tree at the raised cut.
pub fn plans_lead_to_cuts()
    ensures { PlansLeadToCuts }
{}

/// The own file is written, where it is alive at the fsync's stamp and no cut is above that.
pub fn live_files_are_written()
    ensures { LiveFilesAreWritten }
{}
