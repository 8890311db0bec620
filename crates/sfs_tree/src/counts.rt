// Of each node it is kept how many rows name it, how many rows stand in it, how many of these name directories,
// and in which directory the row stands that was made for it last.
ghost use Rattle.std.specs.Prelude.{◌≡◌, ◌≢◌, ◌+◌, ◌-◌, ◌<◌, ◌≤◌, ◌^◌, ◌++◌, ℕ, List, [], ◌∷◌, None, Some, true, length, IfOk, OnOk, OnErr, slice_index, slice_set, vec_len};
ghost use Rattle.std.specs.FinMap as finmap;
ghost use Rattle.std.specs.Ordering.{nat_cmp};
ghost use Rattle.tree_laws.specs.Order.{key_cmp};
ghost use Rattle.tree_laws.specs.Tree.{Node, count_of};
ghost use Rattle.sfs_tree.specs.Counts.{IsCounted, IsWide, MayRise, MayFall, is_directory_in};
ghost use Rattle.tree_laws.specs.Tree.{one_if};

use sfs_base::NoMemory;
use std::alloc::Global;

/// What is counted of rows.
#[derive(Drop)]
pub struct Counts {
    pub named: Vec<u32>,
    pub inside: Vec<u32>,
    pub directories: Vec<u32>,
    pub holders: Vec<u32>,
    pub total: u32,
}

impl Counts {
    /// The counts of no rows.
    pub fn new(alloc: Global) -> Self
        ensures counted { (nodes : finmap.FinMap nat_cmp Node) → IsCounted finmap.empty nodes result }
        ensures wide { IsWide result 0 }
    {
        Counts {
            named: Vec::new(alloc),
            inside: Vec::new(alloc),
            directories: Vec::new(alloc),
            holders: Vec::new(alloc),
            total: 0,
        }
    }

    /// Equal counts.
    pub fn copy(&self) -> Result<Counts, NoMemory>
        ensures named { IfOk result (λ counts. counts.named.items ≡ self.now.named.items) }
        ensures inside { IfOk result (λ counts. counts.inside.items ≡ self.now.inside.items) }
        ensures directories { IfOk result (λ counts. counts.directories.items ≡ self.now.directories.items) }
        ensures holders { IfOk result (λ counts. counts.holders.items ≡ self.now.holders.items) }
        ensures total { IfOk result (λ counts. counts.total ≡ self.now.total) }
    {
        Ok(Counts {
            named: self.named.clone()?,
            inside: self.inside.clone()?,
            directories: self.directories.clone()?,
            holders: self.holders.clone()?,
            total: self.total,
        })
    }

    /// Counts for one more number.
    pub fn grow(&mut self) -> Result<(), NoMemory>
        ensures ok { OnOk result ((places : ℕ) → IsWide self.old places → IsWide self.new (places + 1)) }
        ensures err { OnErr result ((places : ℕ) → IsWide self.old places → IsWide self.new places) }
        ensures counted { (rows : finmap.FinMap key_cmp ℕ) (nodes : finmap.FinMap nat_cmp Node) → IsCounted rows nodes self.old
            → IsCounted rows nodes self.new }
    {
        self.named.reserve(1)?;
        self.inside.reserve(1)?;
        self.directories.reserve(1)?;
        self.holders.reserve(1)?;
        self.named.push_reserved(0);
        self.inside.push_reserved(0);
        self.directories.push_reserved(0);
        self.holders.push_reserved(0);
        Ok(())
    }

    /// Counts a further row of a directory. Its child is a directory or not.
    pub fn add(&mut self, directory: u32, child: u32, is_directory: bool)
        requires { MayRise self.old directory child }
        ensures counted { (rows : finmap.FinMap key_cmp ℕ) (nodes : finmap.FinMap nat_cmp Node) (name : List ℕ) → IsCounted rows nodes self.old
            → finmap.get rows (directory, name) ≡ None → is_directory ≡ is_directory_in nodes child
            → IsCounted (finmap.insert rows (directory, name) child) nodes self.new }
        ensures wide { (places : ℕ) → IsWide self.old places → IsWide self.new places }
    {
        rise(&mut self.named, child, 1);
        rise(&mut self.inside, directory, 1);
        rise(&mut self.directories, directory, number_if(is_directory));
        put_at(&mut self.holders, child, directory);
        self.total += 1;
    }

    /// Takes a row of a directory out of the counts. Its child is a directory, which no other row names, or none.
    pub fn take(&mut self, directory: u32, child: u32, is_directory: bool)
        requires { MayFall self.old directory child is_directory }
        ensures counted { (rows : finmap.FinMap key_cmp ℕ) (nodes : finmap.FinMap nat_cmp Node) (name : List ℕ) → IsCounted rows nodes self.old
            → finmap.get rows (directory, name) ≡ Some child → is_directory ≡ is_directory_in nodes child
            → (is_directory ≡ true → count_of rows child ≡ 1)
            → IsCounted (finmap.remove rows (directory, name)) nodes self.new }
        ensures wide { (places : ℕ) → IsWide self.old places → IsWide self.new places }
    {
        fall(&mut self.named, child, 1);
        fall(&mut self.inside, directory, 1);
        fall(&mut self.directories, directory, number_if(is_directory));
        self.total -= 1;
    }
}

/// The number at a place, and 0 past the last.
pub fn number_at(counts: &[u32], place: u32) -> u32
    ensures { result ≡ slice_index counts.now place }
{
    counts.get(place as usize).copied().unwrap_or(0)
}

// 1 where it is so, and else 0.
fn number_if(holds: bool) -> u32
    ensures { result ≡ one_if holds }
{
    if holds { 1 } else { 0 }
}

// Puts a number at a place.
fn put_at(numbers: &mut Vec<u32>, place: u32, number: u32)
    requires { place < vec_len numbers.old }
    ensures { numbers.new.items ≡ slice_set numbers.old.items place number }
{
    numbers[place as usize] = number;
}

// Raises the count at a place.
fn rise(counts: &mut Vec<u32>, place: u32, more: u32)
    requires within { place < vec_len counts.old }
    requires small { slice_index counts.old.items place + more < 2 ^ 32 }
    ensures { counts.new.items ≡ slice_set counts.old.items place (slice_index counts.old.items place + more) }
{
    counts[place as usize] += more;
}

// Lowers the count at a place.
fn fall(counts: &mut Vec<u32>, place: u32, fewer: u32)
    requires within { place < vec_len counts.old }
    requires enough { fewer ≤ slice_index counts.old.items place }
    ensures { counts.new.items ≡ slice_set counts.old.items place (slice_index counts.old.items place - fewer) }
{
    counts[place as usize] -= fewer;
}
