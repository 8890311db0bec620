// A certificate after single changes: none is accepted.
use crate::helpers::{got, same};
use crate::images::{OWNERS, Owned, PLACES, Place, full};
use image_check::{Certificate, Holder, HolderList, Owner, OwnerList, accept};
use std::alloc::Global;
use std::process::Abort;

// What is changed of a certificate.
enum Change {
    // Nothing.
    None,
    // The entry on a directory at this place is another one.
    Place(usize, Place),
    // It is left out.
    NoPlace(usize),
    // There is one more.
    OnePlace(Place),
    // The same of entries on blocks.
    Owner(usize, Owned),
    NoOwner(usize),
    OneOwner(Owned),
    // The number of files.
    Files(u32),
}

const CHANGES: [Change; 20] = [
    // Another holder: one that has no row, the directory itself, a file, and one past the last inode.
    Change::Place(0, (1, 2, 1)),
    Change::Place(3, (4, 0, 1)),
    Change::Place(3, (4, 4, 2)),
    Change::Place(4, (5, 6, 3)),
    Change::Place(4, (5, 64, 3)),
    // Another depth: none, less, more, and the largest number.
    Change::Place(0, (1, 0, 0)),
    Change::Place(4, (5, 4, 2)),
    Change::Place(4, (5, 4, 4)),
    Change::Place(3, (4, 2, u32::MAX)),
    // A missing entry, and one more: of the root, of a file, of a free inode, and past the last one.
    Change::NoPlace(2),
    Change::OnePlace((0, 0, 0)),
    Change::OnePlace((6, 0, 1)),
    Change::OnePlace((9, 0, 1)),
    Change::OnePlace((64, 0, 1)),
    // Another owner, a missing one, and one more: of a free block, and of one past the last.
    Change::Owner(0, (29, 1)),
    Change::NoOwner(6),
    Change::OneOwner((36, 1)),
    Change::OneOwner((1024, 0)),
    // One file fewer, and one more.
    Change::Files(1),
    Change::Files(3),
];

// The entries on directories after a change.
fn places(rt: &impl Abort, alloc: Global, change: &Change) -> HolderList {
    let mut list = HolderList::new(alloc);
    for (at, entry) in PLACES.iter().enumerate() {
        match change {
            Change::Place(place, other) if *place == at => add_place(rt, &mut list, *other),
            Change::NoPlace(place) if *place == at => {}
            _ => add_place(rt, &mut list, *entry),
        }
    }
    if let Change::OnePlace(entry) = change {
        add_place(rt, &mut list, *entry);
    }
    list
}

// Puts an entry in.
fn add_place(rt: &impl Abort, list: &mut HolderList, (inode, holder, depth): Place) {
    if list.find(inode).is_none() {
        got(
            rt,
            list.add(Holder {
                inode,
                holder,
                depth,
            }),
        );
    }
}

// The entries on blocks after a change.
fn owners(rt: &impl Abort, alloc: Global, change: &Change) -> OwnerList {
    let mut list = OwnerList::new(alloc);
    for (at, entry) in OWNERS.iter().enumerate() {
        match change {
            Change::Owner(place, other) if *place == at => add_owner(rt, &mut list, *other),
            Change::NoOwner(place) if *place == at => {}
            _ => add_owner(rt, &mut list, *entry),
        }
    }
    if let Change::OneOwner(entry) = change {
        add_owner(rt, &mut list, *entry);
    }
    list
}

fn add_owner(rt: &impl Abort, list: &mut OwnerList, (block, inode): Owned) {
    if list.find(block).is_none() {
        got(rt, list.add(Owner { block, inode }));
    }
}

// The certificate of the full image after a change.
fn changed(rt: &impl Abort, alloc: Global, change: &Change) -> Certificate {
    let files = match change {
        Change::Files(files) => *files,
        _ => 2,
    };
    Certificate {
        holders: places(rt, alloc, change),
        owners: owners(rt, alloc, change),
        files,
    }
}

#[test]
fn no_change_of_a_certificate_is_accepted(rt: HostRuntime) {
    let mut disk = full(&rt, rt.alloc());
    let cert = changed(&rt, rt.alloc(), &Change::None);
    same(&rt, &accept(rt.alloc(), &mut disk, &cert), &Ok(true));
    for change in CHANGES.iter() {
        let cert = changed(&rt, rt.alloc(), change);
        same(&rt, &accept(rt.alloc(), &mut disk, &cert), &Ok(false));
    }
}
