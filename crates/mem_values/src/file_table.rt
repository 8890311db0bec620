// What the cells of a file tree stand for.
ghost use Rattle.std.specs.Prelude.{[]};
ghost use Rattle.mem_values.specs.Facts.{IsLawfulLog};
ghost use Rattle.mem_values.specs.LineLaws.{lines_apart};
ghost use Rattle.mem_values.specs.Lines.{slot_in, place_in};
ghost use Rattle.mem_values.specs.Stands.{StandsAt};
ghost use Rattle.mem_values.specs.Start.{given_in};

use crate::slot::slot_in;
use crate::{Cell, Fact};
use disk_nodes::OldDisk;
use stamp_table::Meaning;

/// The meaning of the cells of a file tree. Given is what the disk has of its nodes as the table begins. Its cells are laid out in memory by
/// how many nodes there may be.
pub struct FileTable;

impl Meaning<Cell, Fact, OldDisk> for FileTable {
    ghost lawful = { λ given first log. IsLawfulLog (given_in given.items) first log };

    ghost stands = { λ given first log place value. StandsAt (given_in given.items) first log place value };

    ghost nothing = { record { items = []; spare = 0 } };

    ghost slot_at = { slot_in };

    ghost place_at = { place_in };

    ghost one_to_one = { lines_apart };

    fn slot_of(measure: usize, place: usize) -> usize {
        slot_in(measure, place)
    }
}
