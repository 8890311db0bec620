// Calls that change a file's bytes.
ghost use Rattle.std.specs.Prelude.{◌≡◌, ◌<◌, ◌≤◌, false, None, IsSome, MatchOption, MatchResult};
ghost use Rattle.tree_laws.specs.Effect.{Edits};
ghost use Rattle.tree_laws.specs.Verdict.{verdict, answered, done};
ghost use Rattle.tree_laws.specs.declared.reply.Reply.TheVariants as reply;
ghost use Rattle.stamp_table.specs.Table.{IsBetweenCalls};
ghost use Rattle.mem_values.specs.Start.{given_by};
ghost use Rattle.mem_values.specs.Places.{node_count};
ghost use Rattle.mem_calls.specs.Table.{IsFileTable};
ghost use Rattle.mem_calls.specs.Held.{file_held, HoldsFile, HoldsPart, InEach};
ghost use Rattle.mem_calls.specs.Working.{IsWorking};
ghost use Rattle.mem_calls.specs.Reply.{reply_of};
ghost use Rattle.mem_calls.specs.Edits.{edit_of, edit_call, is_too_big};
ghost use Rattle.mem_calls.specs.Outcome.{IsAnswered, IsRefusedMemory, ComesTo};

use crate::edit::{FileEdit, edited, marked};
use crate::finish::finish;
use crate::held::file_fault_in;
use crate::holding::{CALL_CELLS, hold_file, hold_part};
use crate::short::Short;
use crate::table::TreeTable;
use crate::taking::{add_entry, put, take_file};
use mem_values::{Cell, CellId, FileCore, FileShared};
use sfs_base::{Chunk, Gate, NoMemory, NodeId};
use std::alloc::Global;
use std::sync::Wait;
use tree_laws::{Call, Changes, Code, Reply};

// What an edit answers that changes nothing, by what is held; none where it is to be done.
fn edit_answer(core: &FileCore, nodes: u32, file: NodeId, edit: &FileEdit) -> Option<Short>
    requires counted { nodes ≡ node_count core.now.view.first }
    requires held { HoldsFile nodes core.now.held file }
    ensures due { MatchOption result
        (InEach core.now (λ tree. verdict tree core.now.view.core (edit_call file edit.now) ≡ done (Edits file.0 (edit_of edit.now))))
        (λ answer. InEach core.now (λ tree. verdict tree core.now.view.core (edit_call file edit.now) ≡ answered (reply_of answer))) }
    ensures within { result ≡ None → file.0 < nodes }
    ensures fits { result ≡ None → is_too_big edit.now ≡ false }
{
    if let Some(code) = file_fault_in(core, nodes, file) {
        return Some(Short::Error { code });
    }
    if edit.puts_none() {
        return Some(Short::Done);
    }
    if edit.is_too_big() {
        return Some(Short::Error {
            code: Code::FileTooBig,
        });
    }
    None
}

// Does an edit that nothing refuses but want of memory.
fn finish_edit(
    alloc: Global,
    shared: &FileShared,
    core: &mut FileCore,
    nodes: u32,
    file: NodeId,
    edit: FileEdit,
) -> Result<(), NoMemory>
    requires table { IsFileTable shared.now nodes }
    requires work { IsWorking (given_by shared.now) shared.now core.old }
    requires answered { core.old.waiting ≡ None }
    requires part { HoldsPart nodes core.old }
    requires spare { 0 < core.old.spare }
    requires within { file.0 < nodes }
    requires held { IsSome (file_held nodes core.old.held file) }
    requires fits { is_too_big edit ≡ false }
    requires due { InEach core.old (λ tree. verdict tree core.old.view.core (edit_call file edit) ≡ done (Edits file.0 (edit_of edit))) }
    ensures { MatchResult result (λ _. IsAnswered shared.now (edit_call file edit) reply.Ok core.old core.new) (λ _. IsRefusedMemory shared.now core.old core.new) }
{
    let cell = CellId::File { node: file };
    core.calls_are_few();
    let (value, outcome) = edited(take_file(core, nodes, file), &edit);
    match outcome {
        Ok(touched) => {
            let stamp = core.stamp(shared, edit.into_call(file), Reply::Ok);
            let value = marked(value, touched, stamp);
            put(core, nodes, cell, Cell::File { file: value });
            add_entry(core, nodes, Changes::new(alloc));
            core.let_go(shared, 0);
            Ok(())
        }
        Err(fault) => {
            put(core, nodes, cell, Cell::File { file: value });
            core.let_go(shared, 0);
            Err(fault)
        }
    }
}

// Edits a file.
fn edit_file<R: Wait, G: Gate>(
    rt: &R,
    alloc: Global,
    table: &TreeTable,
    core: &mut FileCore,
    file: NodeId,
    edit: FileEdit,
    gate: &G,
) -> Result<Reply, NoMemory>
    requires core { IsBetweenCalls table.now core.old }
    requires spare { 0 < core.old.spare }
    requires room { CALL_CELLS ≤ core.old.room }
    ensures { ComesTo table.now (edit_call file edit) core.old core.new result }
{
    let shared = table.shared();
    let nodes = table.nodes();
    hold_file(rt, shared, core, nodes, file);
    hold_part(rt, shared, core, nodes, gate);
    match edit_answer(core, nodes, file, &edit) {
        Some(answer) => {
            let call = edit.into_call(file);
            finish(alloc, shared, core, nodes, call, answer.reply());
            Ok(answer.reply())
        }
        None => {
            finish_edit(alloc, shared, core, nodes, file, edit)?;
            Ok(Reply::Ok)
        }
    }
}

/// Puts bytes into a file from byte `at` on. It holds the file, and where no row names it also the first bucket of its node. It may
/// wait. Only want of memory refuses it.
pub fn write<R: Wait, G: Gate>(
    rt: &R,
    alloc: Global,
    table: &TreeTable,
    core: &mut FileCore,
    file: NodeId,
    at: u64,
    bytes: Chunk,
    gate: &G,
) -> Result<Reply, NoMemory>
    requires core { IsBetweenCalls table.now core.old }
    requires spare { 0 < core.old.spare }
    requires room { CALL_CELLS ≤ core.old.room }
    ensures { ComesTo table.now (Call.Write file at bytes) core.old core.new result }
{
    let edit = FileEdit::Put { at, bytes };
    edit_file(rt, alloc, table, core, file, edit, gate)
}

/// Gives a file this size. It holds the same cells as `write`. It may wait. Only want of memory refuses it.
pub fn trunc<R: Wait, G: Gate>(
    rt: &R,
    alloc: Global,
    table: &TreeTable,
    core: &mut FileCore,
    file: NodeId,
    size: u64,
    gate: &G,
) -> Result<Reply, NoMemory>
    requires core { IsBetweenCalls table.now core.old }
    requires spare { 0 < core.old.spare }
    requires room { CALL_CELLS ≤ core.old.room }
    ensures { ComesTo table.now (Call.Trunc file size) core.old core.new result }
{
    let edit = FileEdit::Resize { size };
    edit_file(rt, alloc, table, core, file, edit, gate)
}
