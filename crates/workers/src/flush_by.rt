// A way to flush by any function. A method of a trait can't hand a gate or a disk of any type to another function, but a closure that was
// made where their types are known can.
ghost use Rattle.mem_values.specs.Start.{FileHand, FileState};
ghost use Rattle.workers.specs.Keeping.{KeepsFsyncs};
ghost use Rattle.workers.specs.Serving.{Serves};

use crate::Flush;
use mem_calls::TreeTable;
use mem_values::FileCore;
use sfs_base::{Gate, NodeId};
use std::alloc::Global;
use std::marker::PhantomData;
use std::sync::Wait;
use tree_laws::Reply;

/// How a core stands to its pen, by what all pens share.
pub trait Agreement<S, P> {
    /// They agree.
    ghost agrees: { S → FileHand → P → Type 0 };

    /// Calls that are no fsyncs leave them in agreement.
    ghost kept: { (set : S) (before after : FileHand) (pen : P) → KeepsFsyncs before after → agrees set before pen → agrees set after pen };
}

/// A way to flush: a function serves each fsync of the cores of a table, with what all pens share at hand.
#[derive(Drop)]
pub struct FlushBy<'a, S, P, A, C> {
    pub files: &'a TreeTable,
    pub set: &'a S,
    pub serve: C,
    pub kinds: PhantomData<(P, A)>,
}

impl<'a, S, P: Send, A: Agreement<S, P>, C: Fn(&mut FileCore, &mut P, NodeId) -> Reply> Flush
    for FlushBy<'a, S, P, A, C> {
    type Pen = P;

    ghost table = { λ flush. flush.files.now };

    ghost agrees = { λ flush core pen. A.agrees flush.set.now core pen × Serves C.Fn flush.serve flush.files.now (A.agrees flush.set.now) };

    fn fsync<R: Wait, G: Gate>(
        &self,
        rt: &R,
        alloc: Global,
        core: &mut FileCore,
        pen: &mut P,
        node: NodeId,
        gate: &G,
    ) -> Reply {
        let _rt = rt;
        let _alloc = alloc;
        let _gate = gate;
        (self.serve)(core, pen, node)
    }

    ghost others_keep = { λ flush before after pen keeps agree. (A.kept flush.set.now before after pen keeps agree.0, agree.1) };
}
