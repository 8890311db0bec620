// The rows are kept ascending by the bytes of their names, so a look-up halves the list at each step.
ghost use Rattle.std.specs.Prelude.{◌≡◌, ◌≤◌, ◌<◌, ◌++◌, [], ◌∷◌, ℕ, None, Some, length, map, option_map, slice_get, OnOk, OnErr, IsTrue, IsSome, IfOk, MatchOption};
ghost use Rattle.std.specs.FinMap as finmap;
ghost use Rattle.tree_laws.specs.Order.{name_cmp};

use sfs_base::{Name, NoMemory, NodeId};
use std::alloc::Global;
use std::cmp::Ordering;
use std::marker::Model;

/// A row of a directory: a name and its child.
#[derive(Drop)]
pub struct NameRow {
    pub name: Name,
    pub child: NodeId,
}

/// Some rows of one directory, from name to child. A look-up takes time in the logarithm of their
/// number, and an insertion moves the rows behind it.
#[derive(Drop)]
pub struct NameMap {
    rows: Vec<NameRow>,
}

impl Model for NameMap {
    ghost use Rattle.std.specs.Prelude.{ℕ, map, IsTrue};
    ghost use Rattle.std.specs.Coded.{coded_ℕ, coded_list};
    ghost use Rattle.std.specs.FinMap as finmap;
    ghost use Rattle.tree_laws.specs.Order.{name_cmp};

    ghost Value = { finmap.FinMap name_cmp ℕ };

    ghost coded = { finmap.code (coded_list coded_ℕ) coded_ℕ };

    ghost use Rattle.tree_laws.specs.NameRow.{name_and_child};

    ghost view = { λ m. finmap.from_sorted (map name_and_child m.rows.items) };

    ghost invariant = { λ m. IsTrue (finmap.is_sorted name_cmp (map name_and_child m.rows.items)) };
}

impl NameMap {
    ghost use Rattle.tree_laws.specs.NameRow.{name_and_child, number_of};

    /// No rows.
    pub fn new(alloc: Global) -> Self
        ensures { result ≡ finmap.empty }
    {
        NameMap {
            rows: Vec::new(alloc),
        }
    }

    /// How many rows there are.
    pub fn len(&self) -> usize
        ensures { result ≡ finmap.len self.now }
    {
        self.rows.len()
    }

    /// The rows, names ascending by their bytes.
    pub fn rows(&self) -> &[NameRow]
        ensures { map name_and_child result.now ≡ finmap.entries self.now }
    {
        &self.rows
    }

    /// The child of the row with this name.
    pub fn get(&self, name: &Name) -> Option<NodeId>
        ensures { number_of result ≡ finmap.get self.now name.now }
    {
        let place = place_of(&self.rows, name.bytes());
        child_at(&self.rows, place, name.bytes())
    }

    /// A further row, whose name no row has. Want of memory leaves the rows as they were.
    pub fn insert(&mut self, name: Name, child: NodeId) -> Result<(), NoMemory>
        requires { finmap.get self.old name ≡ None }
        ensures ok { OnOk result (self.new ≡ finmap.insert self.old name child.0) }
        ensures err { OnErr result (self.new ≡ self.old) }
    {
        let place = place_of(&self.rows, name.bytes());
        self.rows.insert(place, NameRow { name, child })?;
        Ok(())
    }

    /// Takes away the row of this name.
    pub fn remove(&mut self, name: &Name)
        requires { IsSome (finmap.get self.old name.now) }
        ensures { self.new ≡ finmap.remove self.old name.now }
    {
        let place = place_of(&self.rows, name.bytes());
        self.rows.remove(place);
    }

    /// Gives the row of this name another child.
    pub fn replace(&mut self, name: &Name, child: NodeId)
        requires { IsSome (finmap.get self.old name.now) }
        ensures { self.new ≡ finmap.insert self.old name.now child.0 }
    {
        let place = place_of(&self.rows, name.bytes());
        self.rows[place].child = child;
    }

    /// Equal rows.
    pub fn copy(&self, alloc: Global) -> Result<NameMap, NoMemory>
        ensures { IfOk result (λ rows. rows ≡ self.now) }
    {
        let mut rows = Vec::new(alloc);
        push_copies(&mut rows, &self.rows)?;
        Ok(NameMap { rows })
    }

    /// The row at this place, names ascending by their bytes. `None` is past the last.
    pub fn at(&self, place: usize) -> Option<&NameRow>
        ensures { option_map (λ row. name_and_child row.now) result ≡ slice_get (finmap.entries self.now) place }
    {
        if place < self.rows.len() {
            Some(&self.rows[place])
        } else {
            None
        }
    }
}

impl NameMap {
    ghost use Rattle.std.specs.Option.{option_or};

    /// Adds rows, which ascend by the bytes of their names, and whose names no row has. Want of memory
    /// leaves the rows as they are.
    pub fn add_rows(&mut self, alloc: Global, rows: &[NameRow]) -> Result<(), NoMemory>
        requires sorted { IsTrue (finmap.is_sorted name_cmp (map name_and_child rows.now)) }
        requires apart { (name : _) → IsSome (finmap.find name_cmp name (map name_and_child rows.now))
            → finmap.get self.old name ≡ None }
        ensures ok { OnOk result ((name : _) → finmap.get self.new name
            ≡ option_or (finmap.find name_cmp name (map name_and_child rows.now)) (finmap.get self.old name)) }
        ensures err { OnErr result (self.new ≡ self.old) }
    {
        self.rows = merged(alloc, rows, &self.rows)?;
        Ok(())
    }
}

ghost use Rattle.tree_laws.specs.NameRow.{name_and_child, number_of, IsPlaceOf, both_lists};

// The rows of two lists in one, names ascending where they ascend in both.
fn merged(alloc: Global, rows: &[NameRow], others: &[NameRow]) -> Result<Vec<NameRow>, NoMemory>
    ensures { IfOk result (λ both. map name_and_child both.items ≡ both_lists (map name_and_child rows.now) (map name_and_child others.now)) }
{
    let mut both = Vec::new(alloc);
    let mut place = 0;
    let mut other = 0;
    while place < rows.len() && other < others.len() {
        if rows[place].name.bytes().cmp(others[other].name.bytes()) == Ordering::Less {
            push_copy(&mut both, &rows[place])?;
            place += 1;
        } else {
            push_copy(&mut both, &others[other])?;
            other += 1;
        }
    }
    push_copies(&mut both, &rows[place..])?;
    push_copies(&mut both, &others[other..])?;
    Ok(both)
}

// Puts a copy of each of the rows behind the last.
fn push_copies(into: &mut Vec<NameRow>, rows: &[NameRow]) -> Result<(), NoMemory>
    ensures { OnOk result (map name_and_child into.new.items ≡ map name_and_child into.old.items ++ map name_and_child rows.now) }
{
    for row in rows {
        push_copy(into, row)?;
    }
    Ok(())
}

// Puts a copy of a row behind the last.
fn push_copy(into: &mut Vec<NameRow>, row: &NameRow) -> Result<(), NoMemory>
    ensures { OnOk result (map name_and_child into.new.items ≡ map name_and_child into.old.items ++ name_and_child row.now ∷ []) }
{
    let name = row.name.copy()?;
    into.push(NameRow {
        name,
        child: row.child,
    })?;
    Ok(())
}

// Where a name stands among rows, or would.
fn place_of(rows: &[NameRow], name: &[u8]) -> usize
    requires { IsTrue (finmap.is_sorted name_cmp (map name_and_child rows.now)) }
    ensures { IsPlaceOf (map name_and_child rows.now) name.now result }
{
    rows.partition_point(|row| row.name.bytes().cmp(name) == Ordering::Less)
}

// The child of the row at a place, if it has this name.
fn child_at(rows: &[NameRow], place: usize, name: &[u8]) -> Option<NodeId>
    requires sorted { IsTrue (finmap.is_sorted name_cmp (map name_and_child rows.now)) }
    requires place { IsPlaceOf (map name_and_child rows.now) name.now place }
    ensures { number_of result ≡ finmap.find name_cmp name.now (map name_and_child rows.now) }
{
    if place >= rows.len() {
        return None;
    }
    let row = &rows[place];
    if row.name.bytes() == name {
        Some(row.child)
    } else {
        None
    }
}
