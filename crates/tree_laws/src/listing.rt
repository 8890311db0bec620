ghost use Rattle.std.specs.Prelude.{◌≡◌, ◌↔◌, ◌==◌, true, map, length, slice_get, option_map, IfOk};
ghost use Rattle.tree_laws.specs.NameKinds.{name_kind};

use sfs_base::{Kind, Name, NoMemory};
use std::marker::Model;

/// A name of a directory, and the kind of its node.
#[derive(Drop)]
pub struct NameKind {
    pub name: Name,
    pub kind: Kind,
}

/// The names in a directory, ascending by their bytes, each with the kind of its node. Contracts see
/// the list of them.
#[derive(Drop)]
pub struct NameRows {
    rows: Vec<NameKind>,
}

impl Model for NameRows {
    ghost use Rattle.std.specs.Prelude.{ℕ, List, map};
    ghost use Rattle.std.specs.Coded.{coded_ℕ, coded_list};
    ghost use Rattle.sfs_base.specs.declared.numbers.Kind.{Kind};
    ghost use Rattle.tree_laws.specs.NameKinds.{name_kind};

    ghost Value = { List (List ℕ × Kind) };

    ghost view = { λ names. map name_kind names.rows.items };
}

impl NameKind {
    /// Whether it is the same row.
    pub fn equals(&self, other: &NameKind) -> bool
        ensures { (result ≡ true) ↔ (name_kind self.now ≡ name_kind other.now) }
    {
        self.kind == other.kind && self.name.bytes() == other.name.bytes()
    }

    /// An equal row.
    pub fn copy(&self) -> Result<NameKind, NoMemory>
        ensures ok { IfOk result (λ row. row ≡ self.now) }
    {
        Ok(NameKind {
            name: self.name.copy()?,
            kind: self.kind,
        })
    }
}

impl NameRows {
    /// These rows. It takes no memory.
    pub fn from_rows(rows: Vec<NameKind>) -> NameRows
        ensures { result ≡ map name_kind rows.items }
    {
        NameRows { rows }
    }

    /// The rows.
    pub fn rows(&self) -> &[NameKind]
        ensures { map name_kind result.now ≡ self.now }
    {
        &self.rows
    }

    /// How many rows there are.
    pub fn len(&self) -> u64
        ensures { result ≡ length self.now }
    {
        self.rows.len() as u64
    }

    /// Whether there are none.
    pub fn is_empty(&self) -> bool
        ensures { result ≡ (length self.now == 0) }
    {
        self.rows.is_empty()
    }

    /// Whether they are the same rows.
    pub fn equals(&self, other: &NameRows) -> bool
        ensures { (result ≡ true) ↔ (self.now ≡ other.now) }
    {
        if self.rows.len() != other.rows.len() {
            return false;
        }
        for place in 0..self.rows.len() {
            if !self.rows[place].equals(&other.rows[place]) {
                return false;
            }
        }
        true
    }

    /// The row at this place, from 0 on. `None` is past the last.
    pub fn get(&self, place: u64) -> Option<&NameKind>
        ensures { option_map (λ row. name_kind row.now) result ≡ slice_get self.now place }
    {
        let place = place as usize;
        if place < self.rows.len() {
            Some(&self.rows[place])
        } else {
            None
        }
    }

    /// Equal rows.
    pub fn copy(&self) -> Result<NameRows, NoMemory>
        ensures ok { IfOk result (λ rows. rows ≡ self.now) }
    {
        let mut rows = Vec::new(*self.rows.allocator());
        for row in &self.rows {
            rows.push(row.copy()?)?;
        }
        Ok(NameRows { rows })
    }
}
