// How a commit reserves. What can be refused comes before its label is told, and what can't behind it.
ghost use Rattle.std.specs.Prelude.{◌≡◌, ◌≤◌, ◌<◌, ◌+◌, ℕ, None, All, length, vec_len, vec_capacity, IfOk, IfErr, OnOk, OnErr, MatchOption};
ghost use Rattle.space_map.specs.Space.{GrantedNumbers, shortage};
ghost use Rattle.slot_laws.specs.declared.label.Seen.{Seen as SeenNode};
ghost use Rattle.slot_laws.specs.Labels.{BoxPast};
ghost use Rattle.slot_laws.specs.Rules.{ReservedRule};
ghost use Rattle.slot_laws.specs.declared.label.Label.TheVariants as label;
ghost use Rattle.commit_ledger.specs.View.{LedgerView, last_at};
ghost use Rattle.commit_ledger.specs.Keeps.{LedgerKeeps, LedgerGoes};
ghost use Rattle.commit_ledger.specs.Calls.{HasTaken, Prepares, MayEnter, EntersCommit};

use crate::Ledger;
use crate::last::{Last, NO_LAST, set_all};
use crate::open_commit::OpenCommit;
use sfs_base::{CoreId, NoMemory, RoomyList};
use slot_laws::Seen;
use space_map::{Grant, Need, SpaceFault};
use std::alloc::Global;

/// What a commit has reserved: its number, its nodes as they were seen, and its grant.
#[derive(Drop)]
pub struct Prepared {
    pub number: u64,
    pub seen: RoomyList<Seen>,
    pub grant: Grant,
}

impl Ledger {
    /// Takes what a commit of these nodes needs, and makes room for `enter`. It refuses where too little is
    /// free, of inodes before blocks; and, as for want of memory, where only the last number is left.
    pub fn prepare(
        &mut self,
        alloc: Global,
        seen: &[Seen],
        need: Need,
    ) -> Result<Prepared, SpaceFault>
        ensures ok { IfOk result (λ prepared. Prepares seen.now need prepared self.old self.new) }
        ensures enough { IfOk result (λ _. shortage self.old.space need ≡ None) }
        ensures cause { IfErr result (λ fault. MatchOption (shortage self.old.space need)
            (fault ≡ SpaceFault.NoMemory) (λ due. fault ≡ due)) }
        ensures err { OnErr result (self.new ≡ self.old) }
    {
        if let Some(fault) = self.space.shortage(need) {
            return Err(fault);
        }
        let number = next_number(self.commits)?;
        let copied = copy_of(alloc, seen)?;
        let missing = missing_places(&self.lasts, seen);
        make_room(&mut self.lasts, missing)?;
        let grant = self.space.reserve(need)?;
        fill(&mut self.lasts, missing);
        Ok(Prepared {
            number,
            seen: copied,
            grant,
        })
    }

    /// Makes a commit the core's open one, once its label is told, with what `prepare` has given. It takes
    /// no memory.
    pub fn enter(&mut self, core: CoreId, number: u64, seen: RoomyList<Seen>)
        requires may { MayEnter core.0 seen.items self.old }
        ensures enters { EntersCommit core.0 number seen.items self.old self.new }
        ensures goes { (before : LedgerView) (grant : GrantedNumbers) (past : BoxPast)
            → HasTaken grant before self.old → LedgerKeeps before past
            → ReservedRule core.0 number seen.items past
            → LedgerGoes (label.Reserved number seen grant) past before self.new }
    {
        let last = Last {
            number,
            ended: false,
        };
        set_all(&mut self.lasts, seen.as_slice(), last);
        self.commits = number;
        self.opens[core.0 as usize] = Some(OpenCommit {
            number,
            seen,
            debt: None,
        });
    }
}

// The number behind this one, unless it is the last there is.
fn next_number(commits: u64) -> Result<u64, NoMemory>
    ensures { IfOk result (λ number. number ≡ commits + 1) }
{
    if commits >= u64::MAX - 1 {
        return Err(NoMemory);
    }
    Ok(commits + 1)
}

// A list of the same nodes.
fn copy_of(alloc: Global, seen: &[Seen]) -> Result<RoomyList<Seen>, NoMemory>
    ensures { IfOk result (λ list. list.items ≡ seen.now) }
{
    Ok(RoomyList::from_vec(Vec::from_slice(alloc, seen)?))
}

// By how much the list has to grow so that it has a place for each of these nodes.
fn missing_places(lasts: &[Last], seen: &[Seen]) -> usize
    ensures { All (λ (one : SeenNode). one.node.0 < length lasts.now + result) seen.now }
{
    let mut missing = 0;
    for one in seen {
        missing = missing.max((one.node.0 as usize + 1).saturating_sub(lasts.len()));
    }
    missing
}

// Room for so many more nodes.
fn make_room(lasts: &mut Vec<Last>, missing: usize) -> Result<(), NoMemory>
    ensures items { lasts.new.items ≡ lasts.old.items }
    ensures room { OnOk result (vec_len lasts.new + missing ≤ vec_capacity lasts.new) }
{
    lasts.reserve(missing)?;
    Ok(())
}

// Makes the list longer by so many nodes that no commit has concerned, into room that was reserved.
fn fill(lasts: &mut Vec<Last>, missing: usize)
    requires { vec_len lasts.old + missing ≤ vec_capacity lasts.old }
    ensures long { length lasts.new.items ≡ length lasts.old.items + missing }
    ensures same { (node : ℕ) → last_at lasts.new.items node ≡ last_at lasts.old.items node }
{
    for _ in 0..missing {
        lasts.push_reserved(NO_LAST);
    }
}
