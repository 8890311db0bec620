// Laws of what a commit leaves of an image once it is durable.
ghost use Rattle.turn_laws.specs.LawsBooks.{CommitsLeaveTheNextTree, GrantedAreGivenInOrder, RewrittenHaveWhatTheyNeed};

/// The inodes that were granted go to the nodes that get one, in their order.
pub fn granted_are_given_in_order()
    ensures { GrantedAreGivenInOrder }
{}

/// A place takes a fresh block exactly where that was counted, and else has none or the one that it had.
pub fn rewritten_have_what_they_need()
    ensures { RewrittenHaveWhatTheyNeed }
{}

/// The image stands for the tree at the raised cut, and has the same data area.
pub fn commits_leave_the_next_tree()
    ensures { CommitsLeaveTheNextTree }
{}
