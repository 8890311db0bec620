// What is proved of what cores make: each function's contract is a law.
ghost use Rattle.made_laws.specs.Made.{MadesGoOn, MakingsGoOn, OwnsGoOn};
ghost use Rattle.made_laws.specs.Own.{OwnsFollowLooks, TellingsGoOn};
ghost use Rattle.made_laws.specs.Tells.{MadesAreKnown, ToldMadesGoOn};

/// What a core made so far it made so in each run that goes on from there.
pub fn mades_go_on()
    ensures { MadesGoOn }
{}

/// And what it told of it stays told of it.
pub fn told_mades_go_on()
    ensures { ToldMadesGoOn }
{}

/// Its commit follows from its look and has its notes.
pub fn mades_are_known()
    ensures { MadesAreKnown }
{}

/// So it is of a file that has an inode, for which a core gathers nothing: what it made goes on being made so.
pub fn owns_go_on()
    ensures { OwnsGoOn }
{}

/// And its commit, by what its core saw of the file alone, follows from the look that it would have had.
pub fn owns_follow_looks()
    ensures { OwnsFollowLooks }
{}

/// In either way what a core made goes on being made so.
pub fn makings_go_on()
    ensures { MakingsGoOn }
{}

/// And what it told of it stays told of it.
pub fn tellings_go_on()
    ensures { TellingsGoOn }
{}
