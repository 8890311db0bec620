// How an open commit goes on and ends. None of these calls takes memory.
ghost use Rattle.std.specs.Prelude.{◌≡◌, ℕ, length, None, Some, IsSome, is_some, if◌then◌else◌, slice_set};
ghost use Rattle.sfs_base.specs.declared.numbers.NodeId.{NodeId as Node};
ghost use Rattle.sfs_base.specs.declared.numbers.Stamp.{Stamp as StampOf};
ghost use Rattle.journal_one.specs.declared.slot.Filling.{Filling};
ghost use Rattle.tree_laws.specs.declared.turns.Turn.{Turn};
ghost use Rattle.slot_laws.specs.Labels.{BoxPast};
ghost use Rattle.slot_laws.specs.Nodes.{no_numbers, last_seen, last_ended};
ghost use Rattle.slot_laws.specs.Rules.{EmptyTurns};
ghost use Rattle.slot_laws.specs.declared.label.Label.TheVariants as label;
ghost use Rattle.commit_ledger.specs.View.{number_in, open_in, last_at, HaveNodePlaces};
ghost use Rattle.commit_ledger.specs.Keeps.{LedgerKeeps, LedgerGoes, WasGranted};
ghost use Rattle.commit_ledger.specs.Calls.{HasEntered, MayReturn, MayEnd, Returns, TakesDebt, PaysDebt, EndsEmpty};

use crate::Ledger;
use crate::last::{Last, set_all, set_seen};
use crate::open_commit::{Debt, OpenCommit};
use sfs_base::{BlockList, CoreId, InodeList};
use slot_laws::Seen;
use space_map::Grant;

impl Ledger {
    /// The core's open commit gives back: the numbers of its grant are free again, and each of its nodes
    /// has the last commit that was seen.
    pub fn give_back(&mut self, core: CoreId, grant: Grant)
        requires may { MayReturn core.0 grant self.old }
        ensures returns { Returns core.0 grant self.old self.new }
        ensures goes { (past : BoxPast) (number : ℕ) → LedgerKeeps self.old past
            → number_in self.old core.0 ≡ Some number → WasGranted past.opens number grant
            → LedgerGoes (label.Returned number) past self.old self.new }
    {
        let one = self.take(core);
        self.space.give_back(grant);
        set_seen(&mut self.lasts, one.seen.as_slice());
    }

    /// The core's open commit begins in a slot: its end is to end this grant, and to make these free.
    pub fn owe(&mut self, core: CoreId, grant: Grant, blocks: BlockList, inodes: InodeList)
        requires may { HasEntered core.0 self.old }
        ensures owes { TakesDebt core.0 (record {
          grant = grant;
          gives_up = record { inodes = inodes.items; blocks = blocks.items };
        }) self.old self.new }
        ensures goes { (past : BoxPast) (number : ℕ) (filling : Filling) (node : Node) (stamp : StampOf)
            → LedgerKeeps self.old past → number_in self.old core.0 ≡ Some number
            → WasGranted past.opens number grant
            → LedgerGoes (label.Began filling number node stamp blocks inodes) past self.old self.new }
    {
        self.put_debt(
            core,
            Debt {
                grant,
                blocks,
                inodes,
            },
        );
    }

    /// The core's open commit, which has begun in a slot, is durable: what it was granted stays taken, what
    /// it gives up is free, and it has ended as the last commit of each of its nodes.
    pub fn end(&mut self, core: CoreId)
        requires may { MayEnd core.0 self.old }
        ensures pays { PaysDebt core.0 self.old self.new }
        ensures goes { (past : BoxPast) (slot : ℕ) (turn : Turn) → LedgerKeeps self.old past
            → number_in self.old core.0 ≡ Some turn.commit
            → LedgerGoes (label.Settled slot turn) past self.old self.new }
    {
        let OpenCommit { number, seen, debt } = self.take(core);
        set_ended(&mut self.lasts, number, seen.as_slice());
        match debt {
            Some(
                Debt {
                    grant,
                    blocks,
                    inodes,
                },
            ) => {
                self.space
                    .free_after(grant, blocks.as_slice(), inodes.as_slice());
            }
            None => unreachable!(),
        }
    }

    /// The core's open commit, which was granted nothing and has written nothing, is durable.
    pub fn end_empty(&mut self, core: CoreId)
        requires may { HasEntered core.0 self.old }
        ensures ends { EndsEmpty core.0 self.old self.new }
        ensures goes { (past : BoxPast) (number : ℕ) (turns : EmptyTurns) → LedgerKeeps self.old past
            → number_in self.old core.0 ≡ Some number → WasGranted past.opens number no_numbers
            → LedgerGoes (label.Empty number turns.cut turns.opened turns.durable) past self.old self.new }
    {
        let one = self.take(core);
        set_ended(&mut self.lasts, one.number, one.seen.as_slice());
    }

    // The core's open commit has this debt.
    fn put_debt(&mut self, core: CoreId, debt: Debt)
        requires { HasEntered core.0 self.old }
        ensures { TakesDebt core.0 debt self.old self.new }
    {
        match &mut self.opens[core.0 as usize] {
            Some(one) => one.debt = Some(debt),
            None => unreachable!(),
        }
    }

    // Takes the core's open commit out.
    fn take(&mut self, core: CoreId) -> OpenCommit
        requires { IsSome (open_in self.old core.0) }
        ensures is { open_in self.old core.0 ≡ Some result }
        ensures out { self.new ≡ record self.old { opens = slice_set self.old.opens core.0 None } }
    {
        match self.opens[core.0 as usize].take() {
            Some(one) => one,
            None => unreachable!(),
        }
    }
}

// Each of these nodes has the commit with this number as its last, which has ended.
fn set_ended(lasts: &mut Vec<Last>, number: u64, seen: &[Seen])
    requires { HaveNodePlaces lasts.old.items seen.now }
    ensures long { length lasts.new.items ≡ length lasts.old.items }
    ensures set { (node : ℕ) → last_at lasts.new.items node ≡
        (if is_some (last_seen seen.now node) then last_ended number else last_at lasts.old.items node) }
{
    let last = Last {
        number,
        ended: true,
    };
    set_all(lasts, seen, last);
}
