//! What is proved of labels: each function's contract is a law.
ghost use Rattle.slot_laws.specs.Counting.{PlacingsTakeTheOldest, SlotsCountUntilSynced};
ghost use Rattle.slot_laws.specs.Grants.{GrantsAreOnes, ReservingsTakeTheLeast, TakenUntilGivenUp};
ghost use Rattle.slot_laws.specs.Lasts.{LabelsKeepTheBox, NodesCount, NodesFit, NotedTurnsKeepNodes, ReservingsKnew, ReturnsRestore};
ghost use Rattle.slot_laws.specs.Laws.{LabelsCountFaults, LabelsMergePens, LabelsRise, LawfulFits, OwnIs, PensMakeTheRecord, StampsAreFew, StampsAreLeft};
ghost use Rattle.slot_laws.specs.Rings.{GreaterStampsAreNewer, SlotsCloseInOrder};
ghost use Rattle.slot_laws.specs.Schedule.{BeginningsTakeAll};
ghost use Rattle.slot_laws.specs.Telling.{PensGoOn, PensTellTurns, TurnsAreOfOne};
ghost use Rattle.slot_laws.specs.Worked.{LabelsCanBeMet};
ghost use Rattle.slot_laws.specs.WorkedLonger.{LingeringSlotsCanBeMet};

/// What fits goes on to fit, whatever is told by the rules.
pub fn lawful_fits()
    ensures { LawfulFits }
{}

/// What a core told is what its own events come to.
pub fn own_is()
    ensures { OwnIs }
{}

/// Of a core at rest the record has the turns that its own events tell.
pub fn pens_make_the_record()
    ensures { PensMakeTheRecord }
{}

/// Each turn's count of faults is right where it stands.
pub fn labels_count_faults()
    ensures { LabelsCountFaults }
{}

/// The moments of turns don't fall.
pub fn labels_rise()
    ensures { LabelsRise }
{}

/// A worked history of two cores may be told by the rules.
pub fn labels_can_be_met()
    ensures { LabelsCanBeMet }
{}

/// The record that labels make has each pen's turns in the pen's order, and no others.
pub fn labels_merge_pens()
    ensures { LabelsMergePens }
{}

/// A slot's gate is written shut only behind each commit with a smaller stamp that shares an inode.
pub fn slots_close_in_order()
    ensures { SlotsCloseInOrder }
{}

/// Of commits in slots that share an inode the one with the greater stamp is the newer.
pub fn greater_stamps_are_newer()
    ensures { GreaterStampsAreNewer }
{}

/// No commit stamp is above the number of numbers that were given.
pub fn stamps_are_few()
    ensures { StampsAreFew }
{}

/// Where a core has reserved a number that has not begun, there are more numbers given than commit stamps drawn.
pub fn stamps_are_left()
    ensures { StampsAreLeft }
{}

/// The last commits of nodes fit the commits that are open and those that have ended.
pub fn nodes_fit()
    ensures { NodesFit }
{}

/// Each reserving, also that of a commit without a grant, has the next number and knew the last
/// commit of each of its nodes, and no open commit concerns one.
pub fn reservings_knew()
    ensures { ReservingsKnew }
{}

/// The nodes of a commit count as its from its reserving until it is durable or has given back.
pub fn nodes_count()
    ensures { NodesCount }
{}

/// A commit that gives back leaves each of its nodes the last commit that it had, and all other
/// nodes as they are.
pub fn returns_restore()
    ensures { ReturnsRestore }
{}

/// A turn that is noted, as of a shortage or a stop, leaves numbers and nodes as they are.
pub fn noted_turns_keep_nodes()
    ensures { NotedTurnsKeepNodes }
{}

/// The labels are a record of the box: no commit is moved as it reserves, and numbers rise.
pub fn labels_keep_the_box()
    ensures { LabelsKeepTheBox }
{}

/// What is granted is granted to one open commit, and is not free.
pub fn grants_are_ones()
    ensures { GrantsAreOnes }
{}

/// Each reserving takes the least free inodes, and blocks that are free.
pub fn reservings_take_the_least()
    ensures { ReservingsTakeTheLeast }
{}

/// What is taken is not free before a commit is durable that gives it up.
pub fn taken_until_given_up()
    ensures { TakenUntilGivenUp }
{}

/// A longer worked history may be told, in which a durable commit lingers while its block moves on, and
/// a map goes along it.
pub fn lingering_slots_can_be_met()
    ensures { LingeringSlotsCanBeMet }
{}

/// A record is placed only as the oldest of its inode among the durable commits in slots.
pub fn placings_take_the_oldest()
    ensures { PlacingsTakeTheOldest }
{}

/// A slot has its durable commit, and so counts, until the sync after its gate was written shut.
pub fn slots_count_until_synced()
    ensures { SlotsCountUntilSynced }
{}

/// What a pen has told goes on with more turns at the box.
pub fn pens_go_on()
    ensures { PensGoOn }
{}

/// A pen's turns are those that its core's turns at the box tell, in their order.
pub fn pens_tell_turns()
    ensures { PensTellTurns }
{}

/// The turns that are told in one turn at the box are of its core and of its fsync.
pub fn turns_are_of_one()
    ensures { TurnsAreOfOne }
{}

/// A commit that begins takes a device call for each piece that fills its slot, and three more.
pub fn beginnings_take_all()
    ensures { BeginningsTakeAll }
{}
