// What a crash may leave of commits that cores made.
use crate::helpers::got;
use driven_journals::Book;
use recovery::recover;
use sfs_base::{Kind, NodeId};
use sfs_dev::Memory;
use sfs_tree::Tree;
use std::alloc::Global;
use std::process::Abort;

// The byte that fills a file's only block, 0 where it has no byte. None, where it has other bytes.
pub(crate) fn filled_with(tree: &Tree, inode: u32) -> Option<u64> {
    let node = NodeId(inode);
    if tree.kind(node) != Some(Kind::File) {
        return None;
    }
    let bytes = tree.bytes(node);
    if bytes.is_empty() {
        return Some(0);
    }
    let first = bytes[0];
    if bytes.len() == 4096 && bytes.iter().all(|byte| *byte == first) {
        return Some(u64::from(first));
    }
    None
}

// How many bytes a file has, all of them 0.
fn zeros_of(tree: &Tree, inode: u32) -> Option<u64> {
    let node = NodeId(inode);
    if tree.kind(node) != Some(Kind::File) {
        return None;
    }
    let bytes = tree.bytes(node);
    if bytes.iter().all(|byte| *byte == 0) {
        return Some(bytes.len() as u64);
    }
    None
}

/// How many of a core's commits were durable at a moment.
pub(crate) fn durable_at(book: &Book, moment: u64) -> u64 {
    let mut count = 0u64;
    for made in book.made.iter() {
        if let Some(ack) = made.ack {
            if ack.moment <= moment {
                count = count.saturating_add(1);
            }
        }
    }
    count
}

// The greatest size that a core's first commits gave the shared file.
fn size_after(book: &Book, commits: u64) -> u64 {
    let mut most = 0u64;
    for made in book.made.iter().take(commits as usize) {
        if let Some(size) = made.size {
            most = most.max(size);
        }
    }
    most
}

/// What a crash left: whether it is allowed, and how many commits there are beyond those that were durable.
#[derive(Clone, Copy, Debug, PartialEq, Eq)]
pub(crate) struct Verdict {
    pub allowed: bool,
    pub beyond: u64,
}

/// Recovers what a crash left at a moment, and judges it: of each core's commits it has those that were durable by then, and one more at most;
/// each whole, with the size that it gave the shared file; and the shared file has the greatest of these.
pub(crate) fn judge(
    rt: &impl Abort,
    alloc: Global,
    left: &mut Memory,
    books: &[Book],
    moment: u64,
) -> Verdict {
    let report = got(rt, recover(alloc, left));
    let mut allowed = report.freed == 0;
    let mut beyond = 0u64;
    let mut size = 0u64;
    for book in books {
        match filled_with(&report.tree, book.inode) {
            Some(commits) => {
                let durable = durable_at(book, moment);
                allowed = allowed
                    && durable <= commits
                    && commits <= durable.saturating_add(1)
                    && commits <= book.made.len() as u64;
                beyond = beyond.saturating_add(commits.saturating_sub(durable));
                size = size.max(size_after(book, commits));
            }
            None => allowed = false,
        }
    }
    if let Some(book) = books.get(0) {
        allowed = allowed && zeros_of(&report.tree, book.shared) == Some(size);
    }
    Verdict { allowed, beyond }
}
