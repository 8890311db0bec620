//! The words that every layer uses: names, numbers, and the ends through which bytes come and go.
#![tactic(auto)]

mod bytes_sink;
mod bytes_source;
mod chunk;
mod fault;
mod gate;
mod lists;
mod name;
mod numbers;
mod path;
mod plan;
mod sink;
mod source;
mod std_ends;
mod transfer;

pub use bytes_sink::BytesSink;
pub use bytes_source::{BytesSource, SureSource};
pub use chunk::{Chunk, ChunkFault, LONGEST_CHUNK};
pub use fault::{Failed, NoMemory};
pub use gate::{Gate, NoGate, Place};
pub use lists::{BlockList, InodeList, NodeList, RoomyList};
pub use name::{Name, NameFault, bucket_of};
pub use numbers::{CoreId, Kind, Measure, NodeId, SpaceKind, Stamp};
pub use path::{LONGEST_PATH, Path, PathFault};
pub use sink::Sink;
pub use source::Source;
pub use std_ends::{StdSink, StdSource};
pub use transfer::{PIECE, ReadAllFault, WriteFault, read_all, write_all};
