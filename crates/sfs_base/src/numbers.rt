/// A node of the tree: a file or a directory.
#[derive(Clone, Copy, Debug, PartialEq, Eq)]
pub struct NodeId(pub u32);

/// The place of a call in the history, from 0 on without a gap.
#[derive(Clone, Copy, Debug, PartialEq, Eq)]
pub struct Stamp(pub u64);

/// A core, on which one worker runs.
#[derive(Clone, Copy, Debug, PartialEq, Eq)]
pub struct CoreId(pub u8);

/// What a node is.
#[derive(Clone, Copy, Debug, PartialEq, Eq)]
pub enum Kind {
    File,
    Directory,
}

/// In what a script is too long.
#[derive(Clone, Copy, Debug, PartialEq, Eq)]
pub enum Measure {
    Bytes,
    Lines,
}

/// Of what a disk has too few.
#[derive(Clone, Copy, Debug, PartialEq, Eq)]
pub enum SpaceKind {
    Inodes,
    Blocks,
}
