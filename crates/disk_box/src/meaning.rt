// What the box's cell stands for, and what cores may tell of it.
ghost use Rattle.std.specs.Prelude.{◌≡◌};
ghost use Rattle.stamp_table.specs.Placing.{lies_in_order};
ghost use Rattle.disk_box.specs.Box.{StandsBox, WasTold, NO_KEY};

use crate::{BoxKey, Desk};
use sfs_dev::Disk;
use slot_laws::Label;
use stamp_table::{Core, Meaning, Shared};
use std::marker::PhantomData;

/// The meaning of a table of one cell, the box: what labels come to is what its desk is at.
pub struct BoxMeaning<D> {
    disk: PhantomData<D>,
}

impl<D: Disk> Meaning<Option<Desk<D>>, Label, BoxKey<D>> for BoxMeaning<D> {
    ghost lawful = { λ key first log. WasTold key log };

    ghost stands = { λ key first log place value. place ≡ 0 → StandsBox D.view key log value };

    ghost nothing = { NO_KEY };

    ghost slot_at = { λ measure place. place };

    ghost place_at = { λ measure slot. slot };

    ghost one_to_one = { λ measure. lies_in_order };

    fn slot_of(_measure: usize, place: usize) -> usize {
        place
    }
}

/// The table whose one cell is the box.
pub type BoxTable<D> = Shared<Option<Desk<D>>, Label, BoxKey<D>, BoxMeaning<D>>;

/// A core's place at the box: what it has told, and what it has seen of the others' labels.
pub type Pen<D> = Core<Option<Desk<D>>, Label, BoxKey<D>, BoxMeaning<D>>;
