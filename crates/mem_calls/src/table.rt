// The table of a file tree, with what its calls ask of it.
ghost use Rattle.std.specs.Prelude.{◌≡◌};
ghost use Rattle.mem_calls.specs.Table.{IsFileTable, AreNumbersOf, nodes_of};

use crate::numbers::Numbers;
use mem_values::FileShared;
use std::marker::Model;

/// The table of a file tree: its cells and calls, how many nodes it may have, and by what its cores number those that they make. Contracts
/// see the plain table.
#[derive(Drop)]
pub struct TreeTable {
    shared: FileShared,
    nodes: u32,
    numbers: Numbers,
}

impl Model for TreeTable {
    ghost use Rattle.sfs_base.specs.Lists.{roomy_code};
    ghost use Rattle.disk_nodes.specs.contracts.old.OldEntry as old;
    ghost use Rattle.stamp_table.specs.Table.{table_code};
    ghost use Rattle.mem_values.specs.Start.{FileState};
    ghost use Rattle.mem_calls.specs.Table.{IsFileTable, AreNumbersOf};

    ghost Value = { FileState };

    ghost coded = { table_code (roomy_code old.the_row.coded) };

    ghost view = { λ t. t.shared };

    ghost invariant = { λ t. IsFileTable t.shared t.nodes × AreNumbersOf t.shared.first t.numbers };
}

impl TreeTable {
    /// The plain table, of so many nodes, whose cores number by these those that they make.
    pub fn new(shared: FileShared, nodes: u32, numbers: Numbers) -> TreeTable
        requires table { IsFileTable shared nodes }
        requires numbers { AreNumbersOf shared.first numbers }
        ensures { result ≡ shared }
    {
        TreeTable {
            shared,
            nodes,
            numbers,
        }
    }

    /// The plain table.
    pub fn shared(&self) -> &FileShared
        ensures { result.now ≡ self.now }
    {
        &self.shared
    }

    /// How many nodes it may have.
    pub fn nodes(&self) -> u32
        ensures count { result ≡ nodes_of self.now }
        ensures table { IsFileTable self.now result }
    {
        self.nodes
    }

    /// By what its cores number the nodes that they make.
    pub fn numbers(&self) -> Numbers
        ensures { AreNumbersOf self.now.first result }
    {
        self.numbers
    }

    /// The plain table, once no call is made any more.
    pub fn into_shared(self) -> FileShared
        ensures { result ≡ self }
    {
        self.shared
    }
}
