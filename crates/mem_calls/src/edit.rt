// Edits of a file's bytes.
ghost use Rattle.std.specs.Prelude.{◌≡◌, ◌≤◌, ℕ, Some, false, length, IfOk, IfErr, if◌then◌else◌};
ghost use Rattle.mem_files.specs.File.{mark_of, room, is_touched};
ghost use Rattle.mem_calls.specs.Edits.{edit_call, puts_none, is_too_big, IsEdited};

use mem_files::Touched;
use mem_values::FileCell;
use sfs_base::{Chunk, NoMemory, NodeId, Stamp};
use tree_laws::Call;

/// How many bytes a file has at most.
const LARGEST_FILE: u64 = 67_551_232;

/// Bytes are put at a place, or the file gets a size.
#[derive(Drop)]
pub(crate) enum FileEdit {
    Put { at: u64, bytes: Chunk },
    Resize { size: u64 },
}

impl FileEdit {
    /// Whether it puts no bytes.
    pub(crate) fn puts_none(&self) -> bool
        ensures { result ≡ puts_none self.now }
    {
        match self {
            FileEdit::Put { at: _, bytes } => bytes.bytes().is_empty(),
            FileEdit::Resize { size: _ } => false,
        }
    }

    /// Whether it would end past the largest file.
    pub(crate) fn is_too_big(&self) -> bool
        ensures { result ≡ is_too_big self.now }
    {
        match self {
            FileEdit::Put { at, bytes } => *at > LARGEST_FILE - bytes.bytes().len() as u64,
            FileEdit::Resize { size } => *size > LARGEST_FILE,
        }
    }

    /// The call that asks for it.
    pub(crate) fn into_call(self, file: NodeId) -> Call
        ensures { result ≡ edit_call file self }
    {
        match self {
            FileEdit::Put { at, bytes } => Call::Write { file, at, bytes },
            FileEdit::Resize { size } => Call::Trunc { file, size },
        }
    }
}

/// The file after an edit, with the blocks that it touched. Where it is refused memory the file is as it was.
pub(crate) fn edited(
    file: Box<FileCell>,
    edit: &FileEdit,
) -> (Box<FileCell>, Result<Touched, NoMemory>)
    requires { is_too_big edit.now ≡ false }
    ensures ok { IfOk result.1 (λ touched. IsEdited file.value edit.now touched result.0.value) }
    ensures err { IfErr result.1 (λ fault. result.0.value ≡ file.value) }
{
    let mut file = file;
    let touched = match edit {
        FileEdit::Put { at, bytes } => file.file.write(*at, bytes.bytes()),
        FileEdit::Resize { size } => file.file.trunc(*size),
    };
    (file, touched)
}

/// The file with this stamp as the mark of these blocks.
pub(crate) fn marked(file: Box<FileCell>, touched: Touched, stamp: Stamp) -> Box<FileCell>
    requires { touched.end ≤ room file.value.file }
    ensures links { result.value.links ≡ file.value.links }
    ensures bytes { result.value.file.bytes ≡ file.value.file.bytes }
    ensures marks { (block : ℕ) → mark_of result.value.file block ≡ (if is_touched touched block then Some stamp else mark_of file.value.file block) }
{
    let mut file = file;
    file.file.mark(touched, stamp);
    file
}
