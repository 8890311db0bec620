// Of each node the last commit that concerned it.
ghost use Rattle.std.specs.Prelude.{◌≡◌, ◌≤◌, ◌<◌, ◌&&◌, ◌==◌, ℕ, length, if◌then◌else◌, is_some, slice_index_or};
ghost use Rattle.slot_laws.specs.Nodes.{last_seen, returned_last, no_last};
ghost use Rattle.commit_ledger.specs.View.{last_at, HaveNodePlaces};

use slot_laws::Seen;
use std::marker::Model;

/// The number of the last commit that concerned a node, and whether it has ended; 0 and ended where there was none.
#[derive(Clone, Copy)]
pub(crate) struct Last {
    pub(crate) number: u64,
    pub(crate) ended: bool,
}

impl Model for Last {
    ghost use Rattle.slot_laws.specs.Nodes.{LastCommit};

    ghost Value = { LastCommit };

    ghost view = { λ last. record { number = last.number; ended = last.ended } };

    ghost inverse = { λ last. record { number = last.number; ended = last.ended } };
}

/// No commit has concerned the node.
pub(crate) const NO_LAST: Last = Last {
    number: 0,
    ended: true,
};

// Each of these nodes has this last commit. It takes no memory.
pub(crate) fn set_all(lasts: &mut Vec<Last>, seen: &[Seen], last: Last)
    requires { HaveNodePlaces lasts.old.items seen.now }
    ensures long { length lasts.new.items ≡ length lasts.old.items }
    ensures set { (node : ℕ) → last_at lasts.new.items node ≡
        (if is_some (last_seen seen.now node) then last else last_at lasts.old.items node) }
{
    for one in seen {
        lasts[one.node.0 as usize] = last;
    }
}

// Each of these nodes has the last commit that was seen of it, which has ended; of a node that is listed
// twice the first counts. It takes no memory.
pub(crate) fn set_seen(lasts: &mut Vec<Last>, seen: &[Seen])
    requires { HaveNodePlaces lasts.old.items seen.now }
    ensures long { length lasts.new.items ≡ length lasts.old.items }
    ensures set { (node : ℕ) → last_at lasts.new.items node
        ≡ returned_last (last_seen seen.now node) (last_at lasts.old.items node) }
{
    for one in seen.iter().rev() {
        lasts[one.node.0 as usize] = Last {
            number: one.last,
            ended: true,
        };
    }
}
