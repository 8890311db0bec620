// What is proved of mounts beside what a shared table, its journals and its fsyncs ask: each function's contract is a law.
ghost use Rattle.site_laws.specs.Sites.{MountsAreSites};

/// What was mounted is what a shared table, its journals and its fsyncs begin with.
pub fn mounts_are_sites()
    ensures { MountsAreSites }
{}
