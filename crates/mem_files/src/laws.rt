// What is proved of the definitions: each function's contract is a law.
ghost use Rattle.mem_files.specs.Laws.{WritesStayInside, TruncationsStayInside};

/// A block that a write does not touch has the bytes that it had.
pub fn writes_stay_inside()
    ensures { WritesStayInside }
{}

/// A block that a truncation does not touch has the bytes that it had.
pub fn truncations_stay_inside()
    ensures { TruncationsStayInside }
{}
