// What is proved of the definitions: each function's contract is a law.
ghost use Rattle.raise_laws.specs.Next.{CutTreesAreStorable, RaisedTreesFollow, OthersAreAside, SameStampsKeep};
ghost use Rattle.raise_laws.specs.Spans.{SpansMakeRows, SpansMakeCutRows, SpansMakeBytes};

/// The tree at a cut that fsyncs leave is sound, and an image may stand for it.
pub fn cut_trees_are_storable()
    ensures { CutTreesAreStorable }
{}

/// The tree at the cut that one fsync more raises may follow the one before.
pub fn raised_trees_follow()
    ensures { RaisedTreesFollow }
{}

/// A node that an fsync does not concern is left as it is.
pub fn others_are_aside()
    ensures { OthersAreAside }
{}

/// A node whose stamp stays keeps its rows and its bytes.
pub fn same_stamps_keep()
    ensures { SameStampsKeep }
{}

/// A directory's rows at a stamp are those at an earlier one with its changes of the span.
pub fn spans_make_rows()
    ensures { SpansMakeRows }
{}

/// So are its rows in the trees at two cuts.
pub fn spans_make_cut_rows()
    ensures { SpansMakeCutRows }
{}

/// A file's bytes at a stamp are those at an earlier one with its changes of the span.
pub fn spans_make_bytes()
    ensures { SpansMakeBytes }
{}
