// A directory's rows lie in eight buckets, those of directory d at 8 * d to 8 * d + 7, each row in that of its name.
ghost use Rattle.std.specs.Prelude.{◌≡◌, ◌⊎◌, ◌+◌, ◌*◌, ◌<◌, ◌≤◌, ◌++◌, None, replicate, IfOk, IfSome, IfNone, IsSome, OnOk, OnErr, slice_set, vec_len};
ghost use Rattle.std.specs.FinMap as finmap;
ghost use Rattle.sfs_base.specs.Name.{bucket};
ghost use Rattle.tree_laws.specs.Tree.{bucket_rows};
ghost use Rattle.tree_laws.specs.Buckets.{bucket_at};

use sfs_base::{Name, NoMemory, NodeId, bucket_of};
use std::alloc::Global;
use std::marker::Model;
use tree_laws::NameMap;

/// How many buckets a directory has.
const BUCKETS: usize = 8;

/// The rows of a tree.
#[derive(Drop)]
pub struct Rows {
    buckets: Vec<NameMap>,
}

impl Model for Rows {
    ghost use Rattle.std.specs.Prelude.{length, ◌/◌};
    ghost use Rattle.sfs_tree.specs.RowsState.{RowsState, rows_code};

    ghost Value = { RowsState };

    ghost coded = { rows_code };

    ghost use Rattle.tree_laws.specs.Buckets.{joined, IsBuilt};

    ghost view = { λ s. record { rows = joined s.buckets.items; places = length s.buckets.items / 8 } };

    ghost invariant = { λ s. IsBuilt s.buckets.items };
}

impl Rows {
    ghost use Rattle.tree_laws.specs.NameRow.{number_of};

    /// No rows, and buckets for no directory.
    pub fn new(alloc: Global) -> Self
        ensures rows { result.rows ≡ finmap.empty }
        ensures places { result.places ≡ 0 }
    {
        Rows {
            buckets: Vec::new(alloc),
        }
    }

    /// Makes buckets for a directory more, if there are none for so many.
    pub fn grow(&mut self, alloc: Global, count: usize) -> Result<(), NoMemory>
        requires { count ≤ self.old.places + 1 }
        ensures ok { OnOk result (count ≤ self.new.places) }
        ensures places { (self.new.places ≡ self.old.places) ⊎ (self.new.places ≡ count) }
        ensures never_lowers { self.old.places ≤ self.new.places }
        ensures rows { self.new.rows ≡ self.old.rows }
    {
        if self.buckets.len() / BUCKETS >= count {
            return Ok(());
        }
        add_buckets(alloc, &mut self.buckets)?;
        Ok(())
    }

    /// Equal rows.
    pub fn copy(&self, alloc: Global) -> Result<Rows, NoMemory>
        ensures { IfOk result (λ rows. rows ≡ self.now) }
    {
        let mut buckets = Vec::new(alloc);
        for bucket in &self.buckets {
            buckets.push(bucket.copy(alloc)?)?;
        }
        Ok(Rows { buckets })
    }

    /// One of a directory's buckets, if it has them.
    pub fn bucket(&self, directory: u32, number: u8) -> Option<&NameMap>
        requires { number < 8 }
        ensures found { IfSome result (λ map. map.now ≡ bucket_rows directory number self.now.rows) }
        ensures none { IfNone result (bucket_rows directory number self.now.rows ≡ finmap.empty) }
    {
        let place = BUCKETS * directory as usize + number as usize;
        if place >= self.buckets.len() {
            return None;
        }
        Some(&self.buckets[place])
    }

    /// The child of the directory's row with this name.
    pub fn get(&self, directory: u32, name: &Name) -> Option<NodeId>
        ensures { number_of result ≡ finmap.get self.now.rows (directory, name.now) }
    {
        match self.bucket(directory, bucket_of(name)) {
            Some(rows) => rows.get(name),
            None => None,
        }
    }

    /// A further row of a directory, whose name no row of it has.
    pub fn insert(&mut self, directory: u32, name: Name, child: NodeId) -> Result<(), NoMemory>
        requires place { directory < self.old.places }
        requires absent { finmap.get self.old.rows (directory, name) ≡ None }
        requires room { finmap.len (bucket_rows directory (bucket name) self.old.rows) < 4096 }
        ensures ok { OnOk result (self.new.rows ≡ finmap.insert self.old.rows (directory, name) child.0) }
        ensures err { OnErr result (self.new.rows ≡ self.old.rows) }
        ensures places { self.new.places ≡ self.old.places }
        ensures few { finmap.len self.new.rows ≤ 32768 * self.new.places }
    {
        let place = BUCKETS * directory as usize + bucket_of(&name) as usize;
        insert_at(&mut self.buckets, place, name, child)?;
        Ok(())
    }

    /// Takes away the directory's row with this name.
    pub fn remove(&mut self, directory: u32, name: &Name)
        requires { IsSome (finmap.get self.old.rows (directory, name.now)) }
        ensures rows { self.new.rows ≡ finmap.remove self.old.rows (directory, name.now) }
        ensures places { self.new.places ≡ self.old.places }
        ensures few { finmap.len self.new.rows ≤ 32768 * self.new.places }
    {
        let place = BUCKETS * directory as usize + bucket_of(name) as usize;
        remove_at(&mut self.buckets, place, name);
    }

    /// Gives the directory's row with this name another child.
    pub fn replace(&mut self, directory: u32, name: &Name, child: NodeId)
        requires { IsSome (finmap.get self.old.rows (directory, name.now)) }
        ensures rows { self.new.rows ≡ finmap.insert self.old.rows (directory, name.now) child.0 }
        ensures places { self.new.places ≡ self.old.places }
        ensures few { finmap.len self.new.rows ≤ 32768 * self.new.places }
    {
        let place = BUCKETS * directory as usize + bucket_of(name) as usize;
        replace_at(&mut self.buckets, place, name, child);
    }
}

// Puts a row into the bucket at a place.
fn insert_at(
    buckets: &mut Vec<NameMap>,
    place: usize,
    name: Name,
    child: NodeId,
) -> Result<(), NoMemory>
    requires within { place < vec_len buckets.old }
    requires absent { finmap.get (bucket_at buckets.old.items place) name ≡ None }
    ensures ok { OnOk result (buckets.new.items
        ≡ slice_set buckets.old.items place (finmap.insert (bucket_at buckets.old.items place) name child.0)) }
    ensures err { OnErr result (buckets.new.items ≡ buckets.old.items) }
{
    buckets[place].insert(name, child)
}

// Takes a row out of the bucket at a place.
fn remove_at(buckets: &mut Vec<NameMap>, place: usize, name: &Name)
    requires within { place < vec_len buckets.old }
    requires present { IsSome (finmap.get (bucket_at buckets.old.items place) name.now) }
    ensures { buckets.new.items
        ≡ slice_set buckets.old.items place (finmap.remove (bucket_at buckets.old.items place) name.now) }
{
    buckets[place].remove(name);
}

// Gives a row of the bucket at a place another child.
fn replace_at(buckets: &mut Vec<NameMap>, place: usize, name: &Name, child: NodeId)
    requires within { place < vec_len buckets.old }
    requires present { IsSome (finmap.get (bucket_at buckets.old.items place) name.now) }
    ensures { buckets.new.items
        ≡ slice_set buckets.old.items place (finmap.insert (bucket_at buckets.old.items place) name.now child.0) }
{
    buckets[place].replace(name, child);
}

// Eight more buckets, behind the last, all empty.
fn add_buckets(alloc: Global, buckets: &mut Vec<NameMap>) -> Result<(), NoMemory>
    ensures ok { OnOk result (buckets.new.items ≡ buckets.old.items ++ replicate 8 finmap.empty) }
    ensures err { OnErr result (buckets.new.items ≡ buckets.old.items) }
{
    buckets.reserve(BUCKETS)?;
    for _added in 0..BUCKETS {
        buckets.push_reserved(NameMap::new(alloc));
    }
    Ok(())
}
