// Laws of histories that grow: what holds of the first entries holds of the whole.
ghost use Rattle.cut_laws.specs.LawsGrowth.{CutTreesGrow, EntriesMayCome, FlushesGrow, StampsAreOnce};

/// What fsyncs raise over the first entries of a history they raise over the whole of it.
pub fn flushes_grow()
    ensures { FlushesGrow }
{}

/// The tree at a cut of the first entries is that at the cut of the whole, but for nodes that were made later.
pub fn cut_trees_grow()
    ensures { CutTreesGrow }
{}

/// An entry of a legal history stands at its stamp, and may come there.
pub fn entries_may_come()
    ensures { EntriesMayCome }
{}

/// Entries of a legal history with one stamp are one entry.
pub fn stamps_are_once()
    ensures { StampsAreOnce }
{}
