// What a run writes at its end.
ghost use Rattle.std.specs.Prelude.{◌≡◌, ℕ, List, string_bytes, IfOk};
ghost use Rattle.sfs_base.specs.Ends.{HasRisen};
ghost use Rattle.script.specs.Texts.{history_text};
ghost use Rattle.scalefs_run.specs.Outcome.{HasText, IsWriteStatus};
ghost use Rattle.scalefs_run.specs.Writing.{line_text, text_due};

use crate::Status;
use crate::image::write_text;
use sfs_base::{NoMemory, Sink};
use std::alloc::Global;
use tree_laws::History;
use tree_totals::TreeTotals;

/// What a run writes at its end.
#[derive(Clone, Copy)]
pub enum Writing {
    /// The text of its history.
    History,
    /// A line of a made script's numbers and of what the run comes to.
    Load { seed: u32, count: u32, workers: u32 },
}

/// The same with what it takes of the run's end.
#[derive(Clone, Copy)]
pub enum Ending {
    History,
    /// The totals are those of the tree at the end.
    Load {
        seed: u32,
        count: u32,
        workers: u32,
        found: TreeTotals,
    },
}

/// Writes what is due of a history, unless what it takes was refused memory.
pub fn write_end<K: Sink>(
    alloc: Global,
    ending: Result<Ending, NoMemory>,
    history: &History,
    sink: &mut K,
) -> Status
    ensures status { IsWriteStatus (HasRisen (K.faults sink.old) (K.faults sink.new)) result }
    ensures text { (text : List ℕ) → IfOk ending (λ due. text_due due history.now ≡ text) → HasText text (K.written sink.old) (K.written sink.new) result }
{
    match ending {
        Ok(Ending::History) => write_history(alloc, history, sink),
        Ok(
            Ending::Load {
                seed,
                count,
                workers,
                found,
            },
        ) => {
            let calls = history.len();
            let Ok(line) = line_of(alloc, seed, count, workers, calls, found) else {
                return Status::NoMemory;
            };
            write_text(sink, line.as_bytes())
        }
        Err(_) => Status::NoMemory,
    }
}

// Writes the text of a history.
fn write_history<K: Sink>(alloc: Global, history: &History, sink: &mut K) -> Status
    ensures status { IsWriteStatus (HasRisen (K.faults sink.old) (K.faults sink.new)) result }
    ensures text { HasText (history_text history.now) (K.written sink.old) (K.written sink.new) result }
{
    let Ok(text) = script::text(alloc, history) else {
        return Status::NoMemory;
    };
    write_text(sink, &text)
}

// The line of `load`, by these numbers.
fn line_of(
    alloc: Global,
    seed: u32,
    count: u32,
    workers: u32,
    calls: u64,
    found: TreeTotals,
) -> Result<String, NoMemory>
    ensures { IfOk result (λ line. string_bytes line ≡ line_text seed count workers calls found.rows found.bytes) }
{
    let rows = found.rows;
    let bytes = found.bytes;
    let mut line = format!(in alloc; "load {seed} {count} {workers}: ")?;
    write!(line, "{calls} calls, {rows} rows, {bytes} bytes\n")?;
    Ok(line)
}
