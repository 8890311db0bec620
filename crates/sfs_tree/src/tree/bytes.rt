// The calls that change a file's bytes.
ghost use Rattle.std.specs.Prelude.{◌≡◌, ℕ, IfOk, OnErr};
ghost use Rattle.tree_laws.specs.declared.call.Call.TheVariants as call;

use super::Tree;
use super::faults::refused;
use sfs_base::{Chunk, NoMemory, NodeId};
use tree_laws::{Code, Reply};

/// How many bytes a file has at most.
const LARGEST_FILE: u64 = 67_551_232;

impl Tree {
    ghost use Rattle.tree_laws.specs.Step.{IsStep};

    pub(super) fn write(&mut self, file: NodeId, at: u64, bytes: &Chunk) -> Result<Reply, NoMemory>
        ensures ok { IfOk result (λ reply. (core : ℕ) → IsStep self.old core (call.Write file at bytes.now) reply self.new) }
        ensures err { OnErr result (self.new ≡ self.old) }
    {
        if let Some(code) = self.file_fault(file) {
            return Ok(refused(code));
        }
        let bytes = bytes.bytes();
        if bytes.is_empty() {
            return Ok(Reply::Ok);
        }
        if at > LARGEST_FILE - bytes.len() as u64 {
            return Ok(refused(Code::FileTooBig));
        }
        self.store.write(file.0, at as usize, bytes)?;
        Ok(Reply::Ok)
    }

    pub(super) fn trunc(&mut self, file: NodeId, size: u64) -> Result<Reply, NoMemory>
        ensures ok { IfOk result (λ reply. (core : ℕ) → IsStep self.old core (call.Trunc file size) reply self.new) }
        ensures err { OnErr result (self.new ≡ self.old) }
    {
        if let Some(code) = self.file_fault(file) {
            return Ok(refused(code));
        }
        if size > LARGEST_FILE {
            return Ok(refused(Code::FileTooBig));
        }
        self.store.resize(file.0, size as usize)?;
        Ok(Reply::Ok)
    }
}
