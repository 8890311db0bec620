// What a worker does on a volume.
ghost use Rattle.tree_laws.specs.Step.{IsReadable};
ghost use Rattle.workers.specs.Works.{Rests};
ghost use Rattle.mount.specs.Serving.{ServesAt};
ghost use Rattle.mount.specs.Workers.{AgreeAt};
ghost use Rattle.library_example.specs.Calls.{IsBack};

use crate::trouble::Trouble;
use disk_box::Pen;
use fsync_dir::FlushSite;
use mount::make_call;
use sfs_base::{Chunk, Kind, Name, NoGate, NodeId};
use sfs_dev::Disk;
use std::alloc::Global;
use std::sync::Wait;
use tree_laws::{Call, Reply};
use workers::Worker;

// The root's node.
const ROOT: NodeId = NodeId(0);

// Makes a call of a worker, and answers its reply.
fn ask<R: Wait, D: Disk + Drop>(
    rt: &R,
    alloc: Global,
    site: &FlushSite<D>,
    worker: &mut Worker<Pen<D>>,
    asked: Call,
) -> Result<Reply, Trouble>
    requires site { ServesAt site.now.table.now site.now.set.now site.now.cores }
    requires rest { Rests site.now.table.now (AgreeAt site.now.table.now site.now.set.now) worker.old }
    requires readable { IsReadable asked }
    ensures { IsBack site.now.table.now site.now.set.now worker.old worker.new }
{
    Ok(make_call(rt, alloc, site, worker, asked, &NoGate)?)
}

// The node that was made.
fn made(reply: Reply) -> Result<NodeId, Trouble> {
    match reply {
        Reply::Node { node, .. } => Ok(node),
        _ => Err(Trouble::Refused { reply }),
    }
}

// Nothing, where it was done.
fn done(reply: Reply) -> Result<(), Trouble> {
    match reply {
        Reply::Ok => Ok(()),
        _ => Err(Trouble::Refused { reply }),
    }
}

// The bytes that were read, as a text.
fn told(alloc: Global, reply: Reply) -> Result<String, Trouble> {
    match reply {
        Reply::Bytes { bytes } => Ok(String::from_utf8_lossy(alloc, bytes.bytes())?),
        _ => Err(Trouble::Refused { reply }),
    }
}

/// Makes a directory of the worker's own in the root, and a file in it; writes the file, flushes it, and answers what is read of it then.
pub fn run_errand<R: Wait, D: Disk + Drop>(
    rt: &R,
    alloc: Global,
    site: &FlushSite<D>,
    worker: &mut Worker<Pen<D>>,
    number: usize,
) -> Result<String, Trouble>
    requires site { ServesAt site.now.table.now site.now.set.now site.now.cores }
    requires rest { Rests site.now.table.now (AgreeAt site.now.table.now site.now.set.now) worker.old }
    ensures { IsBack site.now.table.now site.now.set.now worker.old worker.new }
{
    let asked = Call::Make {
        dir: ROOT,
        name: Name::new(alloc, format!(in alloc; "worker-{number}")?.as_bytes())?,
        kind: Kind::Directory,
    };
    let home = made(ask(rt, alloc, site, worker, asked)?)?;
    let asked = Call::Make {
        dir: home,
        name: Name::new(alloc, b"note".as_slice())?,
        kind: Kind::File,
    };
    let note = made(ask(rt, alloc, site, worker, asked)?)?;
    let asked = Call::Write {
        file: note,
        at: 0,
        bytes: Chunk::new(format!(in alloc; "written by worker {number}")?.into_bytes())?,
    };
    done(ask(rt, alloc, site, worker, asked)?)?;
    done(ask(rt, alloc, site, worker, Call::Fsync { node: note })?)?;
    let asked = Call::Read {
        file: note,
        at: 0,
        count: 100,
    };
    told(alloc, ask(rt, alloc, site, worker, asked)?)
}
