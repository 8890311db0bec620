// A cut: each node's stamp lies at the node's number, and past the last lies 0.
ghost use Rattle.std.specs.Prelude.{◌≡◌, ◌<◌, ℕ, max, ◌^◌, vec_len, slice_index, slice_set, IfOk, OnOk, OnErr};
ghost use Rattle.std.specs.FinMap.{empty};
ghost use Rattle.cut_laws.specs.Cut.{cut_of};
ghost use Rattle.flush_core.specs.Stamps.{at_least};

use sfs_base::NoMemory;
use std::alloc::Global;
use std::marker::Model;

/// The stamps of nodes from which on their own changes are not yet flushed.
#[derive(Drop)]
pub struct Cut {
    stamps: Vec<u64>,
}

impl Model for Cut {
    ghost use Rattle.cut_laws.specs.Cut as specs;
    ghost use Rattle.flush_core.specs.Stamps.{cut_code, by_nodes};

    ghost Value = { specs.Cut };

    ghost coded = { cut_code };

    ghost view = { λ s. by_nodes s.stamps.items };
}

impl Cut {
    /// The cut in which each node has 0.
    pub fn new(alloc: Global) -> Self
        ensures none { result ≡ empty }
        ensures stamps { (node : ℕ) → cut_of result node ≡ 0 }
    {
        Cut {
            stamps: Vec::new(alloc),
        }
    }

    /// A node's stamp.
    pub fn get(&self, node: u32) -> u64
        ensures { result ≡ cut_of self.now node }
    {
        stamp_at(&self.stamps, node as usize)
    }

    /// Raises a node's stamp to this one, where it is less.
    pub fn raise(&mut self, node: u32, stamp: u64) -> Result<(), NoMemory>
        ensures ok { OnOk result ((other : ℕ) → cut_of self.new other ≡ at_least node stamp (cut_of self.old) other) }
        ensures err { OnErr result ((other : ℕ) → cut_of self.new other ≡ cut_of self.old other) }
    {
        make_room(&mut self.stamps, node as usize)?;
        rise(&mut self.stamps, node as usize, stamp);
        Ok(())
    }

    // An equal cut.
    pub(crate) fn copy(&self) -> Result<Cut, NoMemory>
        ensures { IfOk result (λ cut. cut ≡ self.now) }
    {
        Ok(Cut {
            stamps: self.stamps.clone()?,
        })
    }
}

// The stamp at a place, and 0 past the last.
fn stamp_at(stamps: &[u64], place: usize) -> u64
    ensures { result ≡ slice_index stamps.now place }
{
    stamps.get(place).copied().unwrap_or(0)
}

// Puts zeros behind the stamps up to this place.
fn make_room(stamps: &mut Vec<u64>, place: usize) -> Result<(), NoMemory>
    requires { place < 2 ^ 32 }
    ensures same { (other : ℕ) → slice_index stamps.new.items other ≡ slice_index stamps.old.items other }
    ensures room { OnOk result (place < vec_len stamps.new) }
{
    if stamps.len() <= place {
        stamps.resize(place + 1, 0)?;
    }
    Ok(())
}

// Raises the stamp at a place.
fn rise(stamps: &mut Vec<u64>, place: usize, stamp: u64)
    requires { place < vec_len stamps.old }
    ensures { stamps.new.items ≡ slice_set stamps.old.items place (max (slice_index stamps.old.items place) stamp) }
{
    if stamps[place] < stamp {
        stamps[place] = stamp;
    }
}
