//! What is proved: each function's contract is a law.
ghost use Rattle.book_laws.specs.Brings.{BringingsStay};
ghost use Rattle.book_laws.specs.Entries.{EntriesAreThose, EntriesGoOn, EntriesStay, PlannedWithEach};
ghost use Rattle.book_laws.specs.Free.{BlocksStayFree, GrantsStay, InodesStayFree};
ghost use Rattle.book_laws.specs.Imagined.{AllEnd, EntriesAreKept, EntriesAreLeft, ImaginedAreThose};
ghost use Rattle.book_laws.specs.BringingLaws.{ConcernsStay, RaisesStay};
ghost use Rattle.book_laws.specs.Parts.{PartsAreGathered, PartsStay};
ghost use Rattle.book_laws.specs.Plans.{PlansStay};
ghost use Rattle.book_laws.specs.WalkLaws.{RecordsAreKept, WalksAreBooked};
ghost use Rattle.book_laws.specs.Worked.{TwoPensAreKept};
ghost use Rattle.book_laws.specs.Along.{MapsGoAlong, PlacesLack, PlacesReserve};
ghost use Rattle.book_laws.specs.Ending.{MapsGoOn};
ghost use Rattle.book_laws.specs.MapLaws.{MapsCountBooks, MapsReserve, MapsLack, GrantsGoOut, GrantsComeBack, GrantsEnd};

/// An fsync goes on concerning the same nodes once another one is on the disk that concerns none of them.
pub fn concerns_stay()
    ensures { ConcernsStay }
{}

/// It goes on raising a cut, and what it made of its nodes' stamps it makes of them again.
pub fn raises_stay()
    ensures { RaisesStay }
{}

/// Its plan leads from the tree that the other one left to the one that it makes of it.
pub fn plans_stay()
    ensures { PlansStay }
{}

/// The old entries of its plan are those that memory has of its nodes once the other one is on the disk.
pub fn entries_stay()
    ensures { EntriesStay }
{}

/// What memory has once an fsync is on the disk is what it has of nodes that this does not concern, and what the disk then has of the others.
pub fn entries_go_on()
    ensures { EntriesGoOn }
{}

/// All that keep the entries of one disk have the same entries.
pub fn entries_are_those()
    ensures { EntriesAreThose }
{}

/// An fsync is planned with all of them.
pub fn planned_with_each()
    ensures { PlannedWithEach }
{}

/// An inode that is free stays so once an fsync is on the disk that was not granted it.
pub fn inodes_stay_free()
    ensures { InodesStayFree }
{}

/// So does a block.
pub fn blocks_stay_free()
    ensures { BlocksStayFree }
{}

/// So a grant goes on serving its plan.
pub fn grants_stay()
    ensures { GrantsStay }
{}

/// What an fsync gives inodes is what its records gather from the blocks behind it.
pub fn parts_are_gathered()
    ensures { PartsAreGathered }
{}

/// It gives them the same over what another one leaves.
pub fn parts_stay()
    ensures { PartsStay }
{}

/// So what it brings to a volume it brings to it also once another one is on the disk that shares nothing with it.
pub fn bringings_stay()
    ensures { BringingsStay }
{}

/// An imagined volume stands, is of the first one's mount, and has what was brought.
pub fn imagined_are_those()
    ensures { ImaginedAreThose }
{}

/// Fsyncs that share nothing may all end, one after another.
pub fn all_end()
    ensures { AllEnd }
{}

/// What memory keeps behind them is what the imagined volume has.
pub fn entries_are_kept()
    ensures { EntriesAreKept }
{}

/// Of each node it is what the last one left that concerned it.
pub fn entries_are_left()
    ensures { EntriesAreLeft }
{}

/// The books of a record are kept up to each place of it, by what fsyncs have done there.
pub fn walks_are_booked()
    ensures { WalksAreBooked }
{}

/// Where all cores agree with their pens, the turns at the disk are recorded.
pub fn records_are_kept()
    ensures { RecordsAreKept }
{}

/// The worked record of two pens agrees with the books, where its two fsyncs may reserve with the first volume.
pub fn two_pens_are_kept()
    ensures { TwoPensAreKept }
{}

/// A right map counts what the books have free, and has their least open inodes first.
pub fn maps_count_books()
    ensures { MapsCountBooks }
{}

/// What is reserved from such a map fits what the books have free, and has their least open inodes.
pub fn maps_reserve()
    ensures { MapsReserve }
{}

/// What does not fit such a map does not fit the books, by the same numbers.
pub fn maps_lack()
    ensures { MapsLack }
{}

/// A grant that is taken is out beside those that were, and the map stays right.
pub fn grants_go_out()
    ensures { GrantsGoOut }
{}

/// One that is given back is out no more, and the map stays right.
pub fn grants_come_back()
    ensures { GrantsComeBack }
{}

/// One that has ended with its commit is out no more.
pub fn grants_end()
    ensures { GrantsEnd }
{}

/// As an fsync ends, the map stays right beside what it leaves, and all other grants are out.
pub fn maps_go_on()
    ensures { MapsGoOn }
{}

/// At each place of a record where none has failed the map is right, with the grants out that the books have.
pub fn maps_go_along()
    ensures { MapsGoAlong }
{}

/// So a turn may reserve there whose grant is taken from the map.
pub fn places_reserve()
    ensures { PlacesReserve }
{}

/// And a turn lacks room there that tells a shortage of the map.
pub fn places_lack()
    ensures { PlacesLack }
{}
