//! What is proved of the definitions: each function's contract is a law.
ghost use Rattle.history_check.specs.Laws.{LegalHistoriesHaveLegalTexts, LegalTextsHaveLegalHistories, CountsAreOne, AnswersAreOne, LinesTellOneEntry};

/// The text of a legal history is a legal text, with as many lines as the history has entries.
pub fn legal_histories_have_legal_texts()
    ensures { LegalHistoriesHaveLegalTexts }
{}

/// A legal text is that of a legal history of so many entries.
pub fn legal_texts_have_legal_histories()
    ensures { LegalTextsHaveLegalHistories }
{}

/// A text is legal for one number of entries at most.
pub fn counts_are_one()
    ensures { CountsAreOne }
{}

/// A text is not both legal and wrong, and it is wrong at one line at most.
pub fn answers_are_one()
    ensures { AnswersAreOne }
{}

/// Entries that begin one text and may stand at one place have one core, one call and one reply.
pub fn lines_tell_one_entry()
    ensures { LinesTellOneEntry }
{}
