// Link counts after a commit: that of a record, with the rows that come and without those that go.
ghost use Rattle.std.specs.Prelude.{◌≡◌, ℕ, ◌++◌, IfOk, OnOk, filter_map, count_by};
ghost use Rattle.std.specs.Ordering.{nat_cmp};
ghost use Rattle.std.specs.List.Sorted.{IsSorted};
ghost use Rattle.disk_change.specs.Links.{linked_by as node_linked, rows_coming, rows_going, times_in, links_with};

use crate::directory_net::DirectoryNet;
use crate::kinds::{Directories, push_some};
use crate::net_list::NetList;
use sfs_base::{Kind, NoMemory, NodeId};
use std::alloc::Global;
use std::marker::Model;

// For which nodes the rows of nets count that come and that go, each list ascending.
#[derive(Drop)]
pub(crate) struct LinkChanges {
    coming: Vec<u32>,
    going: Vec<u32>,
}

impl Model for LinkChanges {
    ghost use Rattle.std.specs.Ordering.{nat_cmp};
    ghost use Rattle.std.specs.List.Sorted.{IsSorted};
    ghost use Rattle.disk_change.specs.Coming.{Coming};

    ghost Value = { Coming };

    ghost view = { λ l. record { coming = l.coming.items; going = l.going.items } };

    ghost invariant = { λ l. IsSorted nat_cmp l.coming.items × IsSorted nat_cmp l.going.items };
}

impl LinkChanges {
    // What nets change.
    pub(crate) fn of(
        alloc: Global,
        nets: &NetList,
        directories: &Directories,
    ) -> Result<LinkChanges, NoMemory>
        ensures coming { IfOk result (λ l. (node : ℕ) → times_in l.coming node ≡ times_in (rows_coming directories.now nets.now.items) node) }
        ensures going { IfOk result (λ l. (node : ℕ) → times_in l.going node ≡ times_in (rows_going directories.now nets.now.items) node) }
    {
        let mut coming = Vec::new(alloc);
        let mut going = Vec::new(alloc);
        for one in nets.as_slice() {
            push_rows(&mut coming, &mut going, one, directories)?;
        }
        coming.sort_unstable();
        going.sort_unstable();
        Ok(LinkChanges { coming, going })
    }

    // The link count of a node that had this one.
    pub(crate) fn links_after(&self, node: NodeId, links: u32) -> u32
        ensures { result ≡ links_with links (times_in self.now.coming node.0) (times_in self.now.going node.0) }
    {
        let coming = u64::from(links) + times_of(&self.coming, node.0);
        coming
            .saturating_sub(times_of(&self.going, node.0))
            .min(u64::from(u32::MAX)) as u32
    }
}

// Notes the rows of one net that come and that go.
fn push_rows(
    coming: &mut Vec<u32>,
    going: &mut Vec<u32>,
    one: &DirectoryNet,
    directories: &Directories,
) -> Result<(), NoMemory>
    ensures coming { OnOk result (coming.new.items
        ≡ coming.old.items ++ filter_map (λ row. node_linked directories.now one.now.node.0 row.after) one.now.net.items) }
    ensures going { OnOk result (going.new.items
        ≡ going.old.items ++ filter_map (λ row. node_linked directories.now one.now.node.0 row.before) one.now.net.items) }
{
    for row in one.net.as_slice() {
        push_some(coming, linked_by(directories, one.node, row.after))?;
        push_some(going, linked_by(directories, one.node, row.before))?;
    }
    Ok(())
}

// The node for which a row counts: one that names a directory counts for the directory that it is in,
// and one that names a file for the file.
fn linked_by(directories: &Directories, directory: NodeId, child: Option<NodeId>) -> Option<u32>
    ensures { result ≡ node_linked directories.now directory.0 child }
{
    let child = child?;
    match directories.kind_of(child) {
        Kind::Directory => Some(directory.0),
        Kind::File => Some(child.0),
    }
}

// How often a number stands in an ascending list.
pub(crate) fn times_of(numbers: &[u32], number: u32) -> u64
    requires { IsSorted nat_cmp numbers.now }
    ensures { result ≡ times_in numbers.now number }
{
    let from = numbers.partition_point(|other| *other < number);
    let to = numbers.partition_point(|other| *other <= number);
    (to - from) as u64
}
