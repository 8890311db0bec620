// What is proved of the definitions: each function's contract is a law.
ghost use Rattle.flush_plan.specs.Laws.{NetsNeedNoRows};

/// The net of changes by the changes alone is the net of the rows before and after them, where each removal
/// names the row that stands there and each addition comes where none stands.
pub fn nets_need_no_rows()
    ensures { NetsNeedNoRows }
{}
