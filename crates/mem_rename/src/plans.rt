// Which further cells a rename asks for.
ghost use Rattle.std.specs.Prelude.{◌≡◌};
ghost use Rattle.mem_rename.specs.Plans.{plan_by, is_plan};

use crate::looking::Look;
use crate::sides::Move;
use sfs_base::NodeId;

/// What a rename asks for besides both buckets and its log.
#[derive(Clone, Copy)]
pub(crate) struct Plan {
    /// The cell of the old directory as a file.
    pub(crate) old_file: bool,
    /// That of the new directory.
    pub(crate) new_file: bool,
    /// The lock, and the buckets of a directory that would come to another one.
    pub(crate) comes: Option<NodeId>,
    /// The buckets of a directory that another one would replace.
    pub(crate) directory: Option<NodeId>,
    /// The cell of a file that another one would replace.
    pub(crate) file: Option<NodeId>,
}

impl Plan {
    /// Nothing.
    pub(crate) fn none() -> Self
        ensures { result ≡ Rattle.mem_rename.specs.Plans.no_plan }
    {
        Plan {
            old_file: false,
            new_file: false,
            comes: None,
            directory: None,
            file: None,
        }
    }

    /// Whether it is this one.
    pub(crate) fn is(self, other: Plan) -> bool
        ensures { result ≡ is_plan self other }
    {
        self.old_file == other.old_file
            && self.new_file == other.new_file
            && self.comes == other.comes
            && self.directory == other.directory
            && self.file == other.file
    }
}

/// What a rename asks for by what it has looked at.
pub(crate) fn plan_for(look: Look, move_: &Move) -> Plan
    ensures { result ≡ plan_by look move_.now }
{
    let same = look.is_same();
    let comes = look.to_stands && move_.directory != move_.to_directory && look.child_is_directory;
    let directory = look.child_is_directory && look.there_is_directory && !same;
    let file = look.child.is_some()
        && !look.child_is_directory
        && !look.there_is_directory
        && !same;
    Plan {
        old_file: !look.stands,
        new_file: look.stands && !look.to_stands,
        comes: if comes { look.child } else { None },
        directory: if directory { look.there } else { None },
        file: if file { look.there } else { None },
    }
}
