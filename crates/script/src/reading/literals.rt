ghost use Rattle.std.specs.Prelude.{◌≡◌, ◌-◌, ◌^◌, ◌∷◌, [], ◌<◌, ◌≤◌, length, nat_le, if◌then◌else◌, IfOk, IfSome, MatchOption, Some, None};
ghost use Rattle.std.specs.List.{list_all};
ghost use Rattle.script.specs.Words.{is_decimal, is_number, with_digit, value_of, number_up_to, hex_bytes};

use hex::FromHexError;
use sfs_base::{Chunk, NoMemory};
use std::alloc::Global;

// How many hex digits a word has at most.
const MOST_DIGITS: usize = 131_072;

// The number that a word spells, where it is at most this.
pub fn number_up_to(most: u64, word: &[u8]) -> Option<u64>
    ensures value { result ≡ number_up_to most word.now }
    ensures within { IfSome result (λ value. value ≤ most) }
{
    if !is_number(word) {
        return None;
    }
    let value = value_of(word)?;
    if value > most {
        return None;
    }
    Some(value)
}

// Whether these are decimal digits, with no zero before others.
fn is_number(word: &[u8]) -> bool
    ensures { result ≡ is_number word.now }
{
    match word {
        [] => false,
        [digit] => digit.is_ascii_digit(),
        [first, ..] => *first != b'0' && all_decimal(word),
    }
}

fn all_decimal(word: &[u8]) -> bool
    ensures { result ≡ list_all is_decimal word.now }
{
    word.iter().all(|byte| is_decimal(*byte))
}

fn is_decimal(byte: u8) -> bool
    ensures { result ≡ is_decimal byte }
{
    matches!(byte, b'0'..=b'9')
}

// The number that digits spell, where it is below 2 ^ 64.
fn value_of(digits: &[u8]) -> Option<u64>
    ensures { result ≡ (if nat_le (value_of digits.now) (2 ^ 64 - 1) then Some (value_of digits.now) else None) }
{
    let mut value = 0u64;
    for digit in digits {
        match with_digit(value, *digit) {
            Some(longer) => value = longer,
            None => return None,
        }
    }
    Some(value)
}

// A number with one more digit, where it is below 2 ^ 64.
fn with_digit(value: u64, digit: u8) -> Option<u64>
    ensures { MatchOption result (2 ^ 64 ≤ with_digit value digit)
        (λ longer. (longer ≡ with_digit value digit) × (longer < 2 ^ 64)) }
{
    let digit = u64::from(digit.saturating_sub(b'0'));
    value.checked_mul(10)?.checked_add(digit)
}

// The bytes that a word spells in hex.
pub fn hex_bytes(alloc: Global, word: &[u8]) -> Result<Option<Chunk>, NoMemory>
    ensures { IfOk result (λ chunk. chunk ≡ hex_bytes word.now) }
{
    if word == b"-".as_slice() {
        return Ok(Some(chunk_of(Vec::new(alloc))));
    }
    if word.len() < 2 || word.len() > MOST_DIGITS {
        return Ok(None);
    }
    match hex::decode(alloc, word) {
        Ok(bytes) => Ok(Some(chunk_of(bytes))),
        Err(fault) => match fault {
            FromHexError::OutOfMemory => Err(NoMemory),
            _ => Ok(None),
        },
    }
}

// The chunk of so few bytes.
fn chunk_of(bytes: Vec<u8>) -> Chunk
    requires { length bytes.items ≤ 65536 }
    ensures { result ≡ bytes.items }
{
    match Chunk::new(bytes) {
        Ok(chunk) => chunk,
        Err(_) => unreachable!(),
    }
}
