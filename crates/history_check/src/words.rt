// The words of a line, and what one of them may spell.
ghost use Rattle.std.specs.Prelude.{◌≡◌, ◌-◌, ◌^◌, ◌≤◌, ◌==◌, length, position, option_map, IfOk, OnOk};
ghost use Rattle.script.specs.Words.{number_up_to, hex_bytes};
ghost use Rattle.history_check.specs.Reading.{is_space, word, behind, short_number, long_number, spelled_node, spelled_place, spelled_row, spelled_name};

use hex::FromHexError;
use percent_encoding::percent_decode;
use script::number_up_to;
use sfs_base::{Chunk, Name, NameFault, NoMemory, NodeId};
use std::alloc::Global;
use std::marker::Model;

/// How many bytes spell a name of 255 bytes at most: each may be escaped by three. A longer word is
/// refused before memory is taken for it.
const LONGEST_NAME_TEXT: usize = 3 * 255;

/// How many hex digits spell the bytes of one write at most.
const MOST_DIGITS: usize = 131_072;

/// What is left of a line. Contracts see its bytes.
#[derive(Drop)]
pub struct Words<'a> {
    left: &'a [u8],
}

impl<'a> Model for Words<'a> {
    ghost use Rattle.std.specs.Prelude.{ℕ, List};

    ghost Value = { List ℕ };

    ghost view = { λ words. words.left.now };
}

impl<'a> Words<'a> {
    // All words of a line.
    pub fn new(line: &'a [u8]) -> Words<'a>
        ensures { result ≡ line.now }
    {
        Words { left: line }
    }

    // Takes the next word: it ends before a space, or with the line.
    pub fn next(&mut self) -> &'a [u8]
        ensures word { result.now ≡ word self.old }
        ensures left { self.new ≡ behind self.old }
    {
        let left = self.left;
        match place_of(left, b' ') {
            Some(end) => {
                self.left = &left[end + 1..];
                &left[..end]
            }
            None => {
                self.left = &left[left.len()..];
                left
            }
        }
    }

    // Takes a number of 32 bits.
    pub fn short_number(&mut self) -> Option<u32>
        ensures number { result ≡ short_number self.old }
        ensures left { self.new ≡ behind self.old }
    {
        let number = number_up_to(u64::from(u32::MAX), self.next())?;
        Some(number as u32)
    }

    // Takes a number of 64 bits.
    pub fn long_number(&mut self) -> Option<u64>
        ensures number { result ≡ long_number self.old }
        ensures left { self.new ≡ behind self.old }
    {
        number_up_to(u64::MAX, self.next())
    }

    // Takes a node.
    pub fn node(&mut self) -> Option<NodeId>
        ensures node { result ≡ spelled_node self.old }
        ensures left { self.new ≡ behind self.old }
    {
        match self.short_number() {
            Some(number) => Some(NodeId(number)),
            None => None,
        }
    }

    // Takes a row: its directory, and its name.
    pub fn row(&mut self, alloc: Global) -> Result<Option<(NodeId, Name)>, NoMemory>
        ensures row { IfOk result (λ row. row ≡ spelled_row self.old) }
        ensures left { OnOk result (self.new ≡ behind (behind self.old)) }
    {
        let dir = self.node();
        let name = spelled_name(alloc, self.next())?;
        Ok(dir.zip(name))
    }

    // Takes a place in a file: its node, and a number of bytes.
    pub fn place(&mut self) -> Option<(NodeId, u64)>
        ensures place { result ≡ spelled_place self.old }
        ensures left { self.new ≡ behind (behind self.old) }
    {
        let file = self.node();
        let at = self.long_number();
        file.zip(at)
    }

    // Takes the bytes of a write.
    pub fn chunk(&mut self, alloc: Global) -> Result<Option<Chunk>, NoMemory>
        ensures { IfOk result (λ chunk. chunk ≡ hex_bytes (word self.old)) }
    {
        hex_bytes(alloc, self.next())
    }
}

// Where a byte first stands.
pub fn place_of(bytes: &[u8], sought: u8) -> Option<usize>
    ensures { result ≡ position (λ byte. byte == sought) bytes.now }
{
    bytes.iter().position(|byte| *byte == sought)
}

// The name that a word spells by its escapes.
fn spelled_name(alloc: Global, word: &[u8]) -> Result<Option<Name>, NoMemory>
    ensures { IfOk result (λ name. name ≡ spelled_name word.now) }
{
    if word.len() > LONGEST_NAME_TEXT {
        return Ok(None);
    }
    let mut bytes = Vec::new(alloc);
    percent_decode(word).append_to(&mut bytes)?;
    match Name::new(alloc, &bytes) {
        Ok(name) => Ok(Some(name)),
        Err(fault) => match fault {
            NameFault::NoMemory => Err(NoMemory),
            _ => Ok(None),
        },
    }
}

// The bytes that a word spells: none by `-`, and else by hex digits.
fn hex_bytes(alloc: Global, word: &[u8]) -> Result<Option<Chunk>, NoMemory>
    ensures { IfOk result (λ chunk. chunk ≡ hex_bytes word.now) }
{
    if word == b"-".as_slice() {
        return Ok(Some(chunk(Vec::new(alloc))));
    }
    if word.len() < 2 || word.len() > MOST_DIGITS {
        return Ok(None);
    }
    match hex::decode(alloc, word) {
        Ok(bytes) => Ok(Some(chunk(bytes))),
        Err(fault) => match fault {
            FromHexError::OutOfMemory => Err(NoMemory),
            _ => Ok(None),
        },
    }
}

// The chunk of so few bytes.
fn chunk(bytes: Vec<u8>) -> Chunk
    requires { length bytes.items ≤ 65536 }
    ensures { result ≡ bytes.items }
{
    match Chunk::new(bytes) {
        Ok(chunk) => chunk,
        Err(_) => unreachable!(),
    }
}
