ghost use Rattle.std.specs.Prelude.{◌≡◌, ◌+◌, ◌-◌, ◌≤◌, ◌++◌, ℕ, [], length, take, drop, replicate, slice_index, IfOk};
ghost use Rattle.mem_files.specs.Pages.{byte_after};

use sfs_base::NoMemory;
use std::alloc::Global;
use std::marker::Model;
use std::sync::Arc;

/// How many bytes a page has.
pub(crate) const PAGE: usize = 4096;

/// The bytes of a block as far as they are kept; those behind them are zeros. Copies of a page share its bytes, which are never changed:
/// what is written makes a page of its own.
#[derive(Drop)]
pub(crate) struct Page {
    bytes: Option<Arc<Vec<u8>, Global>>,
    kept: usize,
}

impl Model for Page {
    ghost use Rattle.std.specs.Prelude.{ℕ, List, length, ◌≤◌};
    ghost use Rattle.mem_files.specs.Kept.{shared_bytes, kept_bytes};

    ghost Value = { List ℕ };

    ghost view = { λ page. kept_bytes page.bytes page.kept };

    ghost invariant = { λ page. page.kept ≤ length (shared_bytes page.bytes) };
}

impl Page {
    /// A page that keeps no byte. It takes no memory.
    pub(crate) fn new() -> Self
        ensures { result ≡ [] }
    {
        Page {
            bytes: None,
            kept: 0,
        }
    }

    // The bytes that it keeps.
    fn bytes(&self) -> &[u8]
        ensures { result.now ≡ self.now }
    {
        match &self.bytes {
            Some(bytes) => &bytes[..self.kept],
            None => &[],
        }
    }

    /// A page that keeps all bytes, these at a place among them.
    pub(crate) fn written(&self, alloc: Global, at: usize, from: &[u8]) -> Result<Page, NoMemory>
        requires { at + length from.now ≤ PAGE }
        ensures { IfOk result (λ page. (place : ℕ) → slice_index page place
            ≡ byte_after (slice_index self.now) at from.now place) }
    {
        let mut bytes = self.filled(alloc)?;
        put(&mut bytes, at, from);
        Page::of(alloc, bytes)
    }

    // A copy of the bytes, with zeros behind those that it keeps.
    fn filled(&self, alloc: Global) -> Result<Vec<u8>, NoMemory>
        ensures ok { IfOk result (λ bytes. PAGE ≤ length bytes.items) }
        ensures same { IfOk result (λ bytes. (place : ℕ) → slice_index bytes.items place ≡ slice_index self.now place) }
    {
        let mut bytes = Vec::with_capacity(alloc, PAGE)?;
        bytes.extend_from_slice(self.bytes())?;
        if bytes.len() < PAGE {
            bytes.resize(PAGE, 0)?;
        }
        Ok(bytes)
    }

    // A page that keeps these bytes.
    fn of(alloc: Global, bytes: Vec<u8>) -> Result<Page, NoMemory>
        ensures { IfOk result (λ page. page ≡ bytes.items) }
    {
        let kept = bytes.len();
        Ok(Page {
            bytes: Some(Arc::new(alloc, bytes)?),
            kept,
        })
    }

    /// Keeps no byte from a place on.
    pub(crate) fn cut(&mut self, at: usize)
        ensures { self.new ≡ take at self.old }
    {
        self.kept = self.kept.min(at);
    }

    /// Copies the bytes from a place on.
    pub(crate) fn copy_to(&self, at: usize, into: &mut [u8])
        ensures { into.new ≡ take (length into.old) (drop at self.now)
            ++ replicate (length into.old - (length self.now - at)) 0 }
    {
        let bytes = self.bytes();
        let kept = bytes.len().saturating_sub(at).min(into.len());
        let (front, behind) = into.split_at_mut(kept);
        if kept > 0 {
            front.copy_from_slice(&bytes[at..at + kept]);
        }
        behind.fill(0);
    }

    /// An equal page, which shares the bytes. It takes no memory.
    pub(crate) fn copy(&self) -> Result<Page, NoMemory>
        ensures { IfOk result (λ page. page ≡ self.now) }
    {
        let bytes = match &self.bytes {
            Some(bytes) => Some(Arc::try_clone(bytes)?),
            None => None,
        };
        Ok(Page {
            bytes,
            kept: self.kept,
        })
    }
}

// Writes bytes at a place.
fn put(bytes: &mut Vec<u8>, at: usize, from: &[u8])
    requires { at + length from.now ≤ length bytes.old.items }
    ensures { (place : ℕ) → slice_index bytes.new.items place ≡ byte_after (slice_index bytes.old.items) at from.now place }
{
    bytes[at..at + from.len()].copy_from_slice(from);
}
