// Long texts of legal histories.
use history_check::LONGEST_HISTORY;
use second_reader::FIRST;
use sfs_base::NoMemory;
use std::alloc::Global;

/// How many files there are.
const FILES: u32 = 4000;

/// How many bytes are left for the last lines of the longest text.
const LAST: usize = 600;

/// How many bytes the last line has at most.
const LINE: usize = 240;

/// A legal text of one core of at least so many bytes: files are made, and then written, read, looked up and asked for by turns.
pub fn long_text(alloc: Global, least: usize) -> Result<Vec<u8>, NoMemory> {
    let (text, _) = calls_text(alloc, least)?;
    Ok(text.into_bytes())
}

/// A legal text of the greatest length that is checked: such calls, and at last look-ups of a name that is not there, the last of them of
/// a name that is as long as is left for it.
pub fn longest_text(alloc: Global) -> Result<Vec<u8>, NoMemory> {
    let (mut text, mut stamp) = calls_text(alloc, LONGEST_HISTORY - LAST)?;
    for _ in 0..LAST {
        if LONGEST_HISTORY.saturating_sub(text.len()) <= LINE {
            break;
        }
        write!(text, "{stamp} 0 look 0 g = error NoEntry\n")?;
        stamp = stamp.wrapping_add(1);
    }
    write!(text, "{stamp} 0 look 0 ")?;
    let end = " = error NoEntry\n";
    for _ in 0..LONGEST_HISTORY
        .saturating_sub(text.len())
        .saturating_sub(end.len())
    {
        text.push('g')?;
    }
    text.push_str(end)?;
    Ok(text.into_bytes())
}

// A text of at least so many bytes, and the next stamp.
fn calls_text(alloc: Global, least: usize) -> Result<(String, u64), NoMemory> {
    let mut text = String::new(alloc);
    let mut stamp = 0u64;
    for i in 0..FILES {
        let node = FIRST.wrapping_add(i);
        write!(text, "{stamp} 0 create 0 f{i} = node {node} file\n")?;
        stamp = stamp.wrapping_add(1);
    }
    let mut i = 0u32;
    for _ in 0..least {
        if text.len() >= least {
            break;
        }
        add_calls(&mut text, stamp, i)?;
        stamp = stamp.wrapping_add(5);
        i = i.wrapping_add(1) % FILES;
    }
    Ok((text, stamp))
}

// Five calls of the file with this number.
fn add_calls(text: &mut String, stamp: u64, i: u32) -> Result<(), NoMemory> {
    let node = FIRST.wrapping_add(i);
    let second = stamp.wrapping_add(1);
    let third = stamp.wrapping_add(2);
    let fourth = stamp.wrapping_add(3);
    let fifth = stamp.wrapping_add(4);
    write!(text, "{stamp} 0 look 0 f{i} = node {node} file\n")?;
    write!(
        text,
        "{second} 0 write {node} 0 68656c6c6f20776f726c64 = ok\n"
    )?;
    write!(
        text,
        "{third} 0 read {node} 0 11 = bytes 68656c6c6f20776f726c64\n"
    )?;
    write!(text, "{fourth} 0 stat {node} = stat file 1 11\n")?;
    write!(text, "{fifth} 0 fsync {node} = ok\n")?;
    Ok(())
}
