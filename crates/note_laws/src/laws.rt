// What is proved of a core's notes: each function's contract is a law.
ghost use Rattle.note_laws.specs.Joined.{AlikeWhateverAnswered, CopiesAreFiles, JoinsGive, KnownWhateverAnswered, MadeHaveNotes};
ghost use Rattle.note_laws.specs.Merged.{NotedPartsAreLeft, NotesAreLogs};
ghost use Rattle.note_laws.specs.Notes.{NotesAreEnough, PartsHaveMarks};
ghost use Rattle.note_laws.specs.Run.{SawsAreLeft};
ghost use Rattle.note_laws.specs.There.{TouchedWereThere};
ghost use Rattle.note_laws.specs.Worked.{NotesCanBeMet};

/// What a core saw of a node is what the last commit that is done and holds it left.
pub fn saws_are_left()
    ensures { SawsAreLeft }
{}

/// A core's log that stands for the table's has marks as commits trimmed it.
pub fn parts_have_marks()
    ensures { PartsHaveMarks }
{}

/// A noted part has what its marks leave of its core's changes, as the whole run logs them.
pub fn noted_parts_are_left()
    ensures { NotedPartsAreLeft }
{}

/// What is merged of noted parts are logs of the run's calls, and no change that counts is missing.
pub fn notes_are_logs()
    ensures { NotesAreLogs }
{}

/// A part's note tells of the commits of the whole run what a commit beside others has to know.
pub fn notes_are_enough()
    ensures { NotesAreEnough }
{}

/// A commit that is made from notes has its notes.
pub fn made_have_notes()
    ensures { MadeHaveNotes }
{}

/// As it reserves it is known: ruled by those that are done, and it saw what they left.
pub fn joins_give()
    ensures { JoinsGive }
{}

/// What is known of a commit is so whatever fsyncs are answered.
pub fn known_whatever_answered()
    ensures { KnownWhateverAnswered }
{}

/// So are the logs and the files of a history.
pub fn alike_whatever_answered()
    ensures { AlikeWhateverAnswered }
{}

/// A file that was copied as a stamp was drawn is the run's file at that stamp.
pub fn copies_are_files()
    ensures { CopiesAreFiles }
{}

/// The nodes that an fsync touches by what was gathered of notes were nodes of the tree as a part was noted.
pub fn touched_were_there()
    ensures { TouchedWereThere }
{}

/// All that is asked of a core's notes can be met: by a core that flushes the root before any other call.
pub fn notes_can_be_met()
    ensures { NotesCanBeMet }
{}
