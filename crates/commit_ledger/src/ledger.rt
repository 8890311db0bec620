ghost use Rattle.std.specs.Prelude.{◌≡◌, ℕ, [], replicate, IfOk, IfNone, None};
ghost use Rattle.space_map.specs.Space.{Space};
ghost use Rattle.slot_laws.specs.Grants.{NoneGranted};
ghost use Rattle.slot_laws.specs.Labels.{BoxPast, first_past};
ghost use Rattle.slot_laws.specs.Nodes.{last_ended, last_seen};
ghost use Rattle.commit_ledger.specs.View.{last_in, number_in, is_moved, moved_in};
ghost use Rattle.commit_ledger.specs.Keeps.{LedgerKeeps};

use crate::last::{Last, NO_LAST};
use crate::open_commit::OpenCommit;
use sfs_base::{CoreId, NoMemory, NodeId};
use slot_laws::Seen;
use space_map::SpaceMap;
use std::alloc::Global;
use std::marker::Model;

/// What the box with the disk keeps of commits: free space, how many numbers were given, of each node the
/// last commit, and of each core the commit that has reserved and neither ended nor given back. Contracts
/// see these four, nodes and cores by their numbers.
#[derive(Drop)]
pub struct Ledger {
    pub(crate) space: SpaceMap,
    pub(crate) commits: u64,
    pub(crate) lasts: Vec<Last>,
    pub(crate) opens: Vec<Option<OpenCommit>>,
}

impl Model for Ledger {
    ghost use Rattle.commit_ledger.specs.View.{LedgerView};

    ghost Value = { LedgerView };

    ghost view = { λ ledger. record {
      space = ledger.space;
      commits = ledger.commits;
      lasts = ledger.lasts.items;
      opens = ledger.opens.items;
    } };
}

impl Ledger {
    /// A ledger over this map: no number was given, and no core has an open commit.
    pub fn new(alloc: Global, space: SpaceMap, cores: u8) -> Result<Ledger, NoMemory>
        ensures is { IfOk result (λ ledger. ledger ≡
            record { space = space; commits = 0; lasts = []; opens = replicate cores None }) }
        ensures first { IfOk result (λ ledger. (moment : ℕ) → NoneGranted space.inodes
            → NoneGranted space.blocks → LedgerKeeps ledger (first_past moment)) }
    {
        let mut opens = Vec::new(alloc);
        for _ in 0..cores {
            opens.push(None)?;
        }
        Ok(Ledger {
            space,
            commits: 0,
            lasts: Vec::new(alloc),
            opens,
        })
    }

    /// How many numbers were given; the last one given is the same number.
    pub fn commits(&self) -> u64
        ensures { result ≡ self.now.commits }
    {
        self.commits
    }

    /// The number of the core's open commit, where it has one.
    pub fn number(&self, core: CoreId) -> Option<u64>
        ensures { result ≡ number_in self.now core.0 }
    {
        match self.opens.get(core.0 as usize) {
            Some(Some(one)) => Some(one.number),
            _ => None,
        }
    }

    /// The first of these nodes that has moved: its last commit is another than was seen, or has not ended.
    /// It comes with the number of its last commit. `None`: none has.
    pub fn moved(&self, seen: &[Seen]) -> Option<Seen>
        ensures is { result ≡ moved_in self.now seen.now }
        ensures unmoved { IfNone result ((past : BoxPast) → LedgerKeeps self.now past → (node last : ℕ)
            → last_seen seen.now node ≡ Some last → past.lasts node ≡ last_ended last) }
    {
        for one in seen {
            if self.is_moved(one) {
                return Some(Seen {
                    node: one.node,
                    last: self.last(one.node).number,
                });
            }
        }
        None
    }

    // Whether a node's last commit is another than was seen, or has not ended.
    fn is_moved(&self, one: &Seen) -> bool
        ensures { result ≡ is_moved self.now one.now }
    {
        let last = self.last(one.node);
        !(last.ended && last.number == one.last)
    }

    // The last commit of a node.
    fn last(&self, node: NodeId) -> Last
        ensures { result ≡ last_in self.now node.0 }
    {
        match self.lasts.get(node.0 as usize) {
            Some(last) => *last,
            None => NO_LAST,
        }
    }
}
