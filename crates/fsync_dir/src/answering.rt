// The answers of an fsync that waits and flushed nothing.
ghost use Rattle.std.specs.Prelude.{◌≡◌, None, Some, MatchOption};
ghost use Rattle.tree_laws.specs.declared.reply.Reply.TheVariants as reply;
ghost use Rattle.mem_values.specs.Start.{given_by};
ghost use Rattle.mem_calls.specs.Working.{IsWorking};
ghost use Rattle.fsync_dir.specs.Answering.{EndsUntold, LetsGoWaiting, reply_to};

use fsync_catch::WaitingFsync;
use journal_set::CommitFault;
use mem_calls::{TreeTable, let_all_go};
use mem_values::FileCore;
use tree_laws::Reply;

// The reply to an fsync whose commit was refused so; none where a node has moved, since then it begins anew.
fn reply_to(fault: CommitFault) -> Option<Reply>
    ensures { result ≡ reply_to fault }
{
    match fault {
        CommitFault::DiskFailed { faults: _ } => Some(Reply::DiskFailed),
        CommitFault::NoSpace { kind, need, free } => Some(Reply::NoSpace { kind, need, free }),
        CommitFault::Stopped { faults } => Some(Reply::Stopped { faults }),
        CommitFault::Moved { node: _, last: _ } => None,
        CommitFault::NoMemory => Some(Reply::NoMemory),
    }
}

/// Lets all go, and answers that memory was wanting.
pub(crate) fn answer_wanting(table: &TreeTable, core: &mut FileCore, fsync: WaitingFsync) -> Reply
    requires work { IsWorking (given_by table.now) table.now core.old }
    requires waits { core.old.waiting ≡ Some fsync.stamp.0 }
    ensures ends { EndsUntold table.now fsync reply.NoMemory core.old core.new }
    ensures reply { result ≡ reply.NoMemory }
{
    let_all_go(table.shared(), core);
    core.answer(fsync.stamp, Reply::NoMemory, None);
    Reply::NoMemory
}

/// Lets all go, and answers why a commit was refused; nothing is answered where a node has moved.
pub(crate) fn answer_refused(
    table: &TreeTable,
    core: &mut FileCore,
    fsync: WaitingFsync,
    fault: CommitFault,
) -> Option<Reply>
    requires work { IsWorking (given_by table.now) table.now core.old }
    requires waits { core.old.waiting ≡ Some fsync.stamp.0 }
    ensures reply { result ≡ reply_to fault }
    ensures ends { MatchOption result (LetsGoWaiting table.now core.old core.new) (λ given. EndsUntold table.now fsync given core.old core.new) }
{
    let_all_go(table.shared(), core);
    let given = reply_to(fault)?;
    core.answer(fsync.stamp, given, None);
    reply_to(fault)
}
