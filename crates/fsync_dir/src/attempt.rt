// One attempt at an fsync: it catches what it concerns, plans it and commits the plan.
ghost use Rattle.std.specs.Prelude.{◌≡◌, [], Some, IfOk, IsSome, MatchOption, OnErr, length};
ghost use Rattle.mem_files.specs.File.{File};
ghost use Rattle.dep_closure.specs.Gathered.{IsOrderly};
ghost use Rattle.flush_plan.specs.Concerned.{IsConcernOf};
ghost use Rattle.disk_box.specs.Pens.{PenGoes};
ghost use Rattle.journal_set.specs.Ready.{IsReady};
ghost use Rattle.fsync_draft.specs.Drafting.{IsDraftOf, IsHollow, IsOwnDraftOf};
ghost use Rattle.landing_laws.specs.Made.{PlannedFsync};
ghost use Rattle.landing_laws.specs.Landed.{directories_of};
ghost use Rattle.mem_values.specs.Start.{given_by};
ghost use Rattle.mem_calls.specs.Table.{nodes_of};
ghost use Rattle.mem_calls.specs.Working.{IsWorking};
ghost use Rattle.fsync_catch.specs.Catch.{GoesOn, LetsAllGo};
ghost use Rattle.fsync_dir.specs.Attempt.{HasCaught, HasDrafted, HasHeldAlone, HoldsFileAlone, attempt_at};
ghost use Rattle.fsync_dir.specs.Flush.{AttemptComes, WaitsToFlush};
ghost use Rattle.fsync_dir.specs.Site.{IsSite, ToldAsReserved};

use crate::answering::{answer_refused, answer_wanting};
use crate::ending::{PlanLeft, end_landed};
use crate::members::directories;
use crate::site::FlushSite;
use disk_box::{Fsync, Pen};
use flush_plan::FsyncPlan;
use fsync_catch::{Caught, WaitingFsync, catch_alone, catch_nodes};
use fsync_commit::{CommitRefusal, commit_plan};
use fsync_draft::{Draft, DraftedFsync, draft_alone, draft_plan, put_back};
use mem_files::FileBytes;
use mem_values::FileCore;
use sfs_base::{Gate, NoMemory, NodeId, Stamp};
use sfs_dev::Disk;
use std::alloc::Global;
use std::sync::Wait;
use tree_laws::Reply;

/// An fsync that waits for its answer, and the bytes of its file as they were at its stamp, where its node is one.
#[derive(Drop)]
pub(crate) struct OwnFsync {
    pub(crate) fsync: WaitingFsync,
    pub(crate) file: Option<FileBytes>,
}

/// What was planned, and the directories among the members.
#[derive(Drop)]
pub(crate) struct PlannedCommit {
    pub(crate) drafted: DraftedFsync,
    pub(crate) directories: Vec<NodeId>,
}

// Plans an fsync by what it caught, with all memory that it takes behind its commit.
fn planned(
    alloc: Global,
    core: &mut FileCore,
    own: &OwnFsync,
    caught: Caught,
) -> Result<PlannedCommit, NoMemory>
    requires holds { length caught.concern.nodes.items ≡ length core.old.held }
    requires orderly { IsOrderly caught.gathered }
    requires concern { IsConcernOf own.now.fsync.node own.now.fsync.stamp caught.gathered caught.concern }
    ensures drafted { IfOk result (λ todo. IsDraftOf own.now.fsync caught own.now.file core.old todo.drafted) }
    ensures directories { IfOk result (λ todo. todo.directories.items ≡ directories_of own.now.file own.now.fsync.node caught.concern.members.items) }
    ensures hollow { IfOk result (λ todo. IsHollow core.old core.new) }
    ensures back { OnErr result (core.new ≡ core.old) }
{
    let list = directories(
        alloc,
        own.file.as_ref(),
        own.fsync.node,
        caught.concern.members.as_slice(),
    )?;
    let drafted = draft_plan(alloc, core, own.fsync, caught, own.file.as_ref())?;
    Ok(PlannedCommit {
        drafted,
        directories: list,
    })
}

// Commits what was planned, and ends the fsync; where it is refused the values are put back, and all is let go.
fn commit_planned<R: Wait, D: Disk + Drop, G: Gate>(
    rt: &R,
    alloc: Global,
    site: &FlushSite<D>,
    core: &mut FileCore,
    pen: &mut Pen<D>,
    own: &OwnFsync,
    todo: PlannedCommit,
    gate: &G,
) -> Option<Reply>
    requires site { IsSite site.now.table.now (nodes_of site.now.table.now) site.now.cores pen.old.table.given }
    requires ready { IsReady site.now.set.now pen.old }
    requires agree { ToldAsReserved core.old pen.old }
    requires drafted { (planned : PlannedFsync)
        × HasDrafted (attempt_at site.now.table.now (nodes_of site.now.table.now) own.now planned.hand pen.old) planned todo core.old }
    ensures ready { IsReady site.now.set.now pen.new }
    ensures goes { PenGoes pen.old pen.new }
    ensures room { pen.new.room ≡ pen.old.room }
    ensures comes { (planned : PlannedFsync)
        → HasDrafted (attempt_at site.now.table.now (nodes_of site.now.table.now) own.now planned.hand pen.old) planned todo core.old
        → AttemptComes (attempt_at site.now.table.now (nodes_of site.now.table.now) own.now planned.hand pen.old) core.new pen.new result }
{
    let PlannedCommit {
        drafted: DraftedFsync { draft, values },
        directories,
    } = todo;
    let Draft { plan, spares, seen } = draft;
    let FsyncPlan {
        members,
        nodes,
        leave: _,
        change,
    } = plan;
    let fsync = Fsync {
        node: own.fsync.node,
        stamp: own.fsync.stamp,
    };
    match commit_plan(rt, alloc, site.set, pen, fsync, &seen, change, gate) {
        Ok(landed) => {
            let left = PlanLeft {
                members,
                directories,
                nodes,
                spares,
                values,
            };
            end_landed(rt, site, core, own.fsync, left, landed);
            Some(Reply::Ok)
        }
        Err(CommitRefusal { fault, old }) => {
            put_back(core, values, old);
            answer_refused(site.table, core, own.fsync, fault)
        }
    }
}

// Plans and commits what was caught.
fn commit_caught<R: Wait, D: Disk + Drop, G: Gate>(
    rt: &R,
    alloc: Global,
    site: &FlushSite<D>,
    core: &mut FileCore,
    pen: &mut Pen<D>,
    own: &OwnFsync,
    caught: Caught,
    gate: &G,
) -> Option<Reply>
    requires site { IsSite site.now.table.now (nodes_of site.now.table.now) site.now.cores pen.old.table.given }
    requires ready { IsReady site.now.set.now pen.old }
    requires agree { ToldAsReserved core.old pen.old }
    requires caught { HasCaught site.now.table.now (nodes_of site.now.table.now) own.now caught core.old }
    ensures ready { IsReady site.now.set.now pen.new }
    ensures goes { PenGoes pen.old pen.new }
    ensures room { pen.new.room ≡ pen.old.room }
    ensures comes { AttemptComes (attempt_at site.now.table.now (nodes_of site.now.table.now) own.now core.old pen.old) core.new pen.new result }
{
    match planned(alloc, core, own, caught) {
        Ok(todo) => commit_planned(rt, alloc, site, core, pen, own, todo, gate),
        Err(_) => Some(answer_wanting(site.table, core, own.fsync)),
    }
}

// Plans the fsync of a file by its own value alone, with all memory that it takes behind its commit.
fn planned_alone(
    alloc: Global,
    core: &mut FileCore,
    own: &OwnFsync,
    cut: Stamp,
) -> Result<PlannedCommit, NoMemory>
    requires holds { length core.old.held ≡ 1 }
    requires file { IsSome own.now.file }
    ensures drafted { IfOk result (λ todo. (file : File) → own.now.file ≡ Some file → IsOwnDraftOf own.now.fsync cut file core.old todo.drafted) }
    ensures directories { IfOk result (λ todo. todo.directories.items ≡ []) }
    ensures hollow { IfOk result (λ todo. IsHollow core.old core.new) }
    ensures back { OnErr result (core.new ≡ core.old) }
{
    match own.file.as_ref() {
        Some(bytes) => {
            let drafted = draft_alone(alloc, core, own.fsync, cut, bytes)?;
            Ok(PlannedCommit {
                drafted,
                directories: Vec::new(alloc),
            })
        }
        None => unreachable!(),
    }
}

// Plans and commits the fsync of a file whose own value alone is held.
fn commit_alone<R: Wait, D: Disk + Drop, G: Gate>(
    rt: &R,
    alloc: Global,
    site: &FlushSite<D>,
    core: &mut FileCore,
    pen: &mut Pen<D>,
    own: &OwnFsync,
    cut: Stamp,
    gate: &G,
) -> Option<Reply>
    requires site { IsSite site.now.table.now (nodes_of site.now.table.now) site.now.cores pen.old.table.given }
    requires ready { IsReady site.now.set.now pen.old }
    requires agree { ToldAsReserved core.old pen.old }
    requires alone { HasHeldAlone site.now.table.now (nodes_of site.now.table.now) own.now cut core.old }
    ensures ready { IsReady site.now.set.now pen.new }
    ensures goes { PenGoes pen.old pen.new }
    ensures room { pen.new.room ≡ pen.old.room }
    ensures comes { AttemptComes (attempt_at site.now.table.now (nodes_of site.now.table.now) own.now core.old pen.old) core.new pen.new result }
{
    match planned_alone(alloc, core, own, cut) {
        Ok(todo) => commit_planned(rt, alloc, site, core, pen, own, todo, gate),
        Err(_) => Some(answer_wanting(site.table, core, own.fsync)),
    }
}

// Tries to flush by a look at the logs of all cores.
fn attempt_by_look<R: Wait, D: Disk + Drop, G: Gate>(
    rt: &R,
    alloc: Global,
    site: &FlushSite<D>,
    core: &mut FileCore,
    pen: &mut Pen<D>,
    own: &OwnFsync,
    gate: &G,
) -> Option<Reply>
    requires site { IsSite site.now.table.now (nodes_of site.now.table.now) site.now.cores pen.old.table.given }
    requires ready { IsReady site.now.set.now pen.old }
    requires agree { ToldAsReserved core.old pen.old }
    requires waits { WaitsToFlush site.now.table.now (nodes_of site.now.table.now) own.now.fsync own.now.file core.old }
    ensures ready { IsReady site.now.set.now pen.new }
    ensures goes { PenGoes pen.old pen.new }
    ensures room { pen.new.room ≡ pen.old.room }
    ensures comes { AttemptComes (attempt_at site.now.table.now (nodes_of site.now.table.now) own.now core.old pen.old) core.new pen.new result }
{
    match catch_nodes(rt, alloc, site.table, core, site.cores, own.fsync) {
        Ok(caught) => commit_caught(rt, alloc, site, core, pen, own, caught, gate),
        Err(_) => Some(answer_wanting(site.table, core, own.fsync)),
    }
}

// Holds the value of the fsync's own node alone, where that is a file which has an inode; else nothing is held.
fn hold_file<R: Wait, D: Disk + Drop>(
    rt: &R,
    site: &FlushSite<D>,
    core: &mut FileCore,
    own: &OwnFsync,
) -> Result<Option<Stamp>, NoMemory>
    requires waits { WaitsToFlush site.now.table.now (nodes_of site.now.table.now) own.now.fsync own.now.file core.old }
    ensures work { IsWorking (given_by site.now.table.now) site.now.table.now core.new }
    ensures on { GoesOn core.old core.new }
    ensures alone { IfOk result (λ cut. MatchOption cut (LetsAllGo core.new) (HoldsFileAlone site.now.table.now (nodes_of site.now.table.now) own.now
        core.new)) }
    ensures none { OnErr result (LetsAllGo core.new) }
{
    match own.file.as_ref() {
        Some(_) => catch_alone(rt, site.table, core, own.fsync),
        None => Ok(None),
    }
}

/// Tries to flush: the fsync is answered, or a node has moved, and it waits on and may be tried again. A file that has an inode is flushed by its own value
/// alone, and no log is looked at for it.
pub(crate) fn attempt<R: Wait, D: Disk + Drop, G: Gate>(
    rt: &R,
    alloc: Global,
    site: &FlushSite<D>,
    core: &mut FileCore,
    pen: &mut Pen<D>,
    own: &OwnFsync,
    gate: &G,
) -> Option<Reply>
    requires site { IsSite site.now.table.now (nodes_of site.now.table.now) site.now.cores pen.old.table.given }
    requires ready { IsReady site.now.set.now pen.old }
    requires agree { ToldAsReserved core.old pen.old }
    requires waits { WaitsToFlush site.now.table.now (nodes_of site.now.table.now) own.now.fsync own.now.file core.old }
    ensures ready { IsReady site.now.set.now pen.new }
    ensures goes { PenGoes pen.old pen.new }
    ensures room { pen.new.room ≡ pen.old.room }
    ensures comes { AttemptComes (attempt_at site.now.table.now (nodes_of site.now.table.now) own.now core.old pen.old) core.new pen.new result }
{
    match hold_file(rt, site, core, own) {
        Ok(Some(cut)) => commit_alone(rt, alloc, site, core, pen, own, cut, gate),
        Ok(None) => attempt_by_look(rt, alloc, site, core, pen, own, gate),
        Err(_) => Some(answer_wanting(site.table, core, own.fsync)),
    }
}
