// What is proved of the definitions: each function's contract is a law.
ghost use Rattle.space_laws.specs.Laws.{FirstMapsAreRight, GrantsServe, GrantsKeepMaps, ReturnsKeepMaps, CommitsKeepMaps};
ghost use Rattle.space_laws.specs.Laws.{PlansFillSlots, GrantsServePlans, MapsCountFree};

/// A map that begins with what nodes have as taken is right.
pub fn first_maps_are_right()
    ensures { FirstMapsAreRight }
{}

/// A grant taken from such a map serves the plan that it was taken for.
pub fn grants_serve()
    ensures { GrantsServe }
{}

/// And leaves the map right.
pub fn grants_keep_maps()
    ensures { GrantsKeepMaps }
{}

/// So does one that is given back.
pub fn returns_keep_maps()
    ensures { ReturnsKeepMaps }
{}

/// And one that ends with its commit, beside what memory then keeps.
pub fn commits_keep_maps()
    ensures { CommitsKeepMaps }
{}

/// What a plan builds of directories can stand in slots.
pub fn plans_fill_slots()
    ensures { PlansFillSlots }
{}

/// And so a grant from a right map serves the whole plan that it was taken for.
pub fn grants_serve_plans()
    ensures { GrantsServePlans }
{}

/// With no grant out a right map counts as free what the image has free.
pub fn maps_count_free()
    ensures { MapsCountFree }
{}
