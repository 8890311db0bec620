// What is proved of the definitions: each function's contract is a law.
ghost use Rattle.space_map.specs.Laws.{EndsLeaveOthers, ReturnsLeaveOthers, GrantsAreApart};

/// The end of a grant leaves every other granted number granted.
pub fn ends_leave_others()
    ensures { EndsLeaveOthers }
{}

/// So does giving a grant back.
pub fn returns_leave_others()
    ensures { ReturnsLeaveOthers }
{}

/// Two grants have no number in common.
pub fn grants_are_apart()
    ensures { GrantsAreApart }
{}
