// What is proved of the definitions: each function's contract is a law.
ghost use Rattle.log_merge.specs.Laws.{ThereIsOneMerge};

/// Some changes have one merge.
pub fn there_is_one_merge()
    ensures { ThereIsOneMerge }
{}
