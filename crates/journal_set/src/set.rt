// The journals of all cores.
use crate::line::Line;
use disk_box::{BoxTable, Desk};
use sfs_dev::Disk;
use std::marker::Model;

/// The journals of all cores at one disk, which lies in a box that one core has at a time. Contracts see the table of that box.
#[derive(Drop)]
pub struct JournalSet<D: Disk> {
    pub(crate) table: BoxTable<D>,
    pub(crate) line: Line,
}

impl<D: Disk> Model for JournalSet<D> {
    ghost use Rattle.std.specs.Prelude.{◌≡◌};
    ghost use Rattle.stamp_table.specs.Table.{TableState, table_code};
    ghost use Rattle.disk_box.specs.declared.key.BoxKey.{BoxKey};
    ghost use Rattle.disk_box.specs.Codes.{key_code};
    ghost use Rattle.fmt_super.specs.contracts.layout.Layout as layout;
    ghost use Rattle.space_map.specs.contracts.map.SpaceMap as space;

    ghost Value = { TableState (BoxKey D) };

    ghost coded = { table_code (key_code layout.the_row.coded space.the_row.coded D.code) };

    ghost view = { λ set. set.table };

    ghost invariant = { λ set. set.table.cores ≡ set.table.table.given.layout.cores };
}
