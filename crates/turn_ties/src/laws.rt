// What is proved of the definitions: each function's contract is a law.
ghost use Rattle.turn_ties.specs.Led.{LedPlansAreTied};
ghost use Rattle.turn_ties.specs.Laws.{PlansAreMade, NeedsAreTheBooks, CountedNodesFit};
ghost use Rattle.turn_ties.specs.Laws.{GrantsAreTheLeast, FitsAreTheBooks, ShortsAreTheBooks};
ghost use Rattle.turn_ties.specs.Laws.{CommitsLeaveImages, EmptyCommitsLeaveImages, RestsGoOn};
ghost use Rattle.turn_ties.specs.Laws.{MarkedPagesAreTouched, OwnFilesAreTouched};

/// What an fsync makes that has a plan is what the turns say that it makes.
pub fn plans_are_made()
    ensures { PlansAreMade }
{}

/// A plan needs as much as the books say.
pub fn needs_are_the_books()
    ensures { NeedsAreTheBooks }
{}

/// No more nodes enter than there are numbers for.
pub fn counted_nodes_fit()
    ensures { CountedNodesFit }
{}

/// The least free inodes of a map are those that the books say that are reserved.
pub fn grants_are_the_least()
    ensures { GrantsAreTheLeast }
{}

/// Where a map has no shortage, what is needed fits.
pub fn fits_are_the_books()
    ensures { FitsAreTheBooks }
{}

/// Where it has one, what is needed does not fit, and both numbers are told.
pub fn shorts_are_the_books()
    ensures { ShortsAreTheBooks }
{}

/// The commit of an fsync leaves of the image what the turns say.
pub fn commits_leave_images()
    ensures { CommitsLeaveImages }
{}

/// So does the commit of one that needs nothing.
pub fn empty_commits_leave_images()
    ensures { EmptyCommitsLeaveImages }
{}

/// What there is behind it is what the volume that it leaves has.
pub fn rests_go_on()
    ensures { RestsGoOn }
{}

/// The pages of a file's change are those of the blocks that changes touch.
pub fn marked_pages_are_touched()
    ensures { MarkedPagesAreTouched }
{}

/// So are those of a plan that changes the fsync's own file.
pub fn own_files_are_touched()
    ensures { OwnFilesAreTouched }
{}

/// A plan that leads to the cut which an fsync raises has such pages.
pub fn led_plans_are_tied()
    ensures { LedPlansAreTied }
{}
