// What is proved of the definitions: each function's contract is a law.
ghost use Rattle.mark_laws.specs.Laws.{MarksMakeFiles, FilesStayShort, ImagesHaveShortFiles};
ghost use Rattle.mark_laws.specs.Laws.{FilesBegin, NewFilesBegin, LongerHistoriesKeepFiles, EditsKeepFiles, OthersKeepFiles};

/// What is written of a file by its marks leads from its bytes at a stamp to those that it has.
pub fn marks_make_files()
    ensures { MarksMakeFiles }
{}

/// No file comes to have more bytes than a file may have.
pub fn files_stay_short()
    ensures { FilesStayShort }
{}

/// And none of an image has more.
pub fn images_have_short_files()
    ensures { ImagesHaveShortFiles }
{}

/// A file without marks is that of the first tree.
pub fn files_begin()
    ensures { FilesBegin }
{}

/// A file without bytes and marks is that of a node that was just made.
pub fn new_files_begin()
    ensures { NewFilesBegin }
{}

/// A file is in a longer history what it is in its begin.
pub fn longer_histories_keep_files()
    ensures { LongerHistoriesKeepFiles }
{}

/// An edit that is marked keeps the file that of the history.
pub fn edits_keep_files()
    ensures { EditsKeepFiles }
{}

/// And so does each other call without one.
pub fn others_keep_files()
    ensures { OthersKeepFiles }
{}
