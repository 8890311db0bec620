use sfs_base::{BlockList, InodeList, RoomyList};
use slot_laws::Seen;
use space_map::Grant;
use std::marker::Model;

/// A commit that has reserved and neither ended nor given back: its number, its nodes as they were seen,
/// and, from where it begins in a slot, what is due at its end.
#[derive(Drop)]
pub(crate) struct OpenCommit {
    pub(crate) number: u64,
    pub(crate) seen: RoomyList<Seen>,
    pub(crate) debt: Option<Debt>,
}

impl Model for OpenCommit {
    ghost use Rattle.commit_ledger.specs.View.{OpenView};

    ghost Value = { OpenView };

    ghost view = { λ one. record { number = one.number; seen = one.seen.items; debt = one.debt } };
}

/// What is due at a commit's end: the grant that it ends, and the blocks and inodes that it gives up.
#[derive(Drop)]
pub(crate) struct Debt {
    pub(crate) grant: Grant,
    pub(crate) blocks: BlockList,
    pub(crate) inodes: InodeList,
}

impl Model for Debt {
    ghost use Rattle.commit_ledger.specs.View.{DebtView};

    ghost Value = { DebtView };

    ghost view = { λ debt. record {
      grant = debt.grant;
      gives_up = record { inodes = debt.inodes.items; blocks = debt.blocks.items };
    } };
}
