// How an fsync is served.
ghost use Rattle.std.specs.Prelude.{◌<◌, ◌≤◌};
ghost use Rattle.tree_laws.specs.declared.call.Call.TheVariants as call;
ghost use Rattle.stamp_table.specs.Table.{IsBetweenCalls, IsSameCore};
ghost use Rattle.mem_values.specs.Start.{FileHand, FileState};
ghost use Rattle.fsync_stamp.specs.Adding.{AddsCall};
ghost use Rattle.workers.specs.Keeping.{KeepsFsyncs};

use mem_values::FileCore;
use sfs_base::{Gate, NodeId};
use std::alloc::Global;
use std::sync::Wait;
use tree_laws::Reply;

/// A way to flush: what serves the fsyncs of the cores of one table.
pub trait Flush {
    /// What a worker writes with.
    type Pen: Send;

    /// The table whose cores it serves.
    ghost table: { Self → FileState };

    /// How a core, by its fsyncs and by what it told, stands to its pen between two calls.
    ghost agrees: { Self → FileHand → Self.Pen → Type 0 };

    /// Stamps the fsync of a node, serves it and answers it. The core and its pen agree before it and after it, whatever it answers.
    fn fsync<R: Wait, G: Gate>(
        &self,
        rt: &R,
        alloc: Global,
        core: &mut FileCore,
        pen: &mut Self::Pen,
        node: NodeId,
        gate: &G,
    ) -> Reply
        requires core { IsBetweenCalls (table self.now) core.old }
        requires spare { 0 < core.old.spare }
        requires room { 3 ≤ core.old.room }
        requires agrees { agrees self.now core.old pen.old }
        ensures adds { AddsCall (call.Fsync node) result core.old core.new }
        ensures between { IsBetweenCalls (table self.now) core.new }
        ensures same { IsSameCore core.old core.new }
        ensures agrees { agrees self.now core.new pen.new };

    /// Other calls leave a core and its pen in agreement.
    ghost others_keep: { (flush : Self) (before after : FileHand) (pen : Self.Pen) → KeepsFsyncs before after → agrees flush before pen → agrees flush after pen };
}
