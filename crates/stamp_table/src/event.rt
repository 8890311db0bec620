use sfs_base::CoreId;
use tree_laws::Entry;

/// What a history has, one behind the other: a call, which drew a stamp, or something that a core told. No value of it is made.
pub enum Event<X> {
    Called { entry: Entry },
    Told { core: CoreId, fact: X },
}
