// What is proved of phases in one history: each function's contract is a law.
ghost use Rattle.workers.specs.Phases.{MadeNothing, MadeMore, MadePart};

/// A history without entries follows no phases.
pub fn made_nothing()
    ensures { MadeNothing }
{}

/// Where each worker ended a phase, and its calls stand behind those of the phases before it, a history that has these calls follows one
/// phase more.
pub fn made_more()
    ensures { MadeMore }
{}

/// Where not each worker ended it, the history follows the phases so far.
pub fn made_part()
    ensures { MadePart }
{}
