ghost use Rattle.std.specs.Prelude.{◌≡◌, ◌⊎◌, ◌<◌, length, map, slice_index, slice_get, option_map, Some, None, IfOk, IfSome};
ghost use Rattle.sfs_base.specs.Name.{name_fault};
ghost use Rattle.hex.specs.Hex.{is_hex_digit};
ghost use Rattle.percent_encoding.specs.Percent.{percent_decode};
ghost use Rattle.script.specs.Lines.{parts};
ghost use Rattle.script.specs.Paths.{begins_with_digits, is_text_byte, may_stand, is_name_text, name_in, names_in, path_names, path_of, name_path_of};

use crate::NamePath;
use crate::reading::split::first_part;
use percent_encoding::percent_decode;
use sfs_base::{Name, NameFault, NoMemory, Path};
use std::alloc::Global;

/// How many bytes spell a path of 4,096 bytes at most: each byte may be escaped by three. A longer
/// word is refused before memory is taken for its names.
const LONGEST_TEXT: usize = 3 * 4096;

// The path with at least one name that a word spells.
pub fn name_path_of(alloc: Global, word: &[u8]) -> Result<Option<NamePath>, NoMemory>
    ensures { IfOk result (λ path. path ≡ name_path_of word.now) }
{
    match path_of(alloc, word)? {
        Some(path) => Ok(NamePath::new(path)),
        None => Ok(None),
    }
}

// The path that a word spells.
pub fn path_of(alloc: Global, word: &[u8]) -> Result<Option<Path>, NoMemory>
    ensures { IfOk result (λ path. path ≡ path_of word.now) }
{
    if word.len() > LONGEST_TEXT {
        return Ok(None);
    }
    match path_names(alloc, word)? {
        Some(names) => match Path::new(names) {
            Ok(path) => Ok(Some(path)),
            Err(_) => Ok(None),
        },
        None => Ok(None),
    }
}

// The names of a path of any length.
fn path_names(alloc: Global, word: &[u8]) -> Result<Option<Vec<Name>>, NoMemory>
    ensures { IfOk result (λ names. option_map (λ names. names.items) names ≡ path_names word.now) }
{
    match word {
        [b'/'] => Ok(Some(Vec::new(alloc))),
        [b'/', texts @ ..] => names_in(alloc, texts),
        _ => Ok(None),
    }
}

// The names that texts parted by `/` spell, where all are names.
fn names_in(alloc: Global, texts: &[u8]) -> Result<Option<Vec<Name>>, NoMemory>
    ensures { IfOk result (λ names. option_map (λ names. names.items) names ≡ names_in (parts 47 texts.now)) }
{
    let mut names = Vec::new(alloc);
    let mut rest = Some(texts);
    while let Some(bytes) = rest {
        let (text, behind) = first_part(bytes, b'/');
        match name_in(alloc, text)? {
            Some(name) => names.push(name)?,
            None => return Ok(None),
        }
        rest = behind;
    }
    Ok(Some(names))
}

// The name that a text spells.
fn name_in(alloc: Global, text: &[u8]) -> Result<Option<Name>, NoMemory>
    ensures { IfOk result (λ name. name ≡ name_in text.now) }
{
    if !is_name_text(text) {
        return Ok(None);
    }
    let mut bytes = Vec::new(alloc);
    percent_decode(text).append_to(&mut bytes)?;
    match Name::new(alloc, &bytes) {
        Ok(name) => Ok(Some(name)),
        Err(fault) => match fault {
            NameFault::NoMemory => Err(NoMemory),
            _ => Ok(None),
        },
    }
}

// Whether a text has the bytes of a name's text, and two hex digits behind each `%`.
fn is_name_text(text: &[u8]) -> bool
    ensures { result ≡ is_name_text text.now }
{
    for (place, byte) in text.iter().enumerate() {
        if !may_stand(*byte, &text[place + 1..]) {
            return false;
        }
    }
    true
}

// Whether a byte may stand before this text.
fn may_stand(byte: u8, text: &[u8]) -> bool
    ensures { result ≡ may_stand byte text.now }
{
    is_text_byte(byte) && (byte != b'%' || begins_with_digits(text))
}

fn is_text_byte(byte: u8) -> bool
    ensures { result ≡ is_text_byte byte }
{
    matches!(byte, 33..=126) && byte != b'/'
}

fn begins_with_digits(text: &[u8]) -> bool
    ensures { result ≡ begins_with_digits text.now }
{
    match text {
        [high, low, ..] => is_hex_digit(*high) && is_hex_digit(*low),
        _ => false,
    }
}

fn is_hex_digit(byte: u8) -> bool
    ensures { result ≡ is_hex_digit byte }
{
    matches!(byte, b'A'..=b'F' | b'a'..=b'f' | b'0'..=b'9')
}
