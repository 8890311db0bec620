//! How fast long texts are checked, and whether drawn texts are answered as by a second reader. `bench_check measure`, `longest` and `drawn`
//! do so; without a word the program says so. It is in no test.
#![tactic(auto)]

mod drawn;
mod long_text;

use drawn::drawn;
use long_text::{long_text, longest_text};
use second_reader::answer;
use std::alloc::Global;
use std::rt::Clock;
use std::time::Instant;
use std::{env, io};

/// How many bytes the long text has at least.
const LONG: usize = 100_000_000;

/// How many histories are drawn.
const HISTORIES: u64 = 10_000;

fn main(rt: HostRuntime) -> io::Result<()> {
    let alloc = rt.alloc();
    let mut words = Vec::new(alloc);
    if let Ok(args) = env::args(&rt) {
        if let Ok(all) = args.collect::<Vec<String>>(alloc) {
            words = all;
        }
    }
    let Some(word) = words.get(1) else {
        return println!(rt;
            "bench_check measure, longest: how fast long texts are checked; drawn: drawn texts, checked and read"
        );
    };
    match word.as_str() {
        "measure" => measure(&rt, alloc),
        "longest" => measure_longest(&rt, alloc),
        "drawn" => compare(&rt, alloc),
        _ => println!(rt; "no such word"),
    }
}

// Checks a long text, and the same text with one byte changed in its last line.
fn measure<R: Clock + Print>(rt: &R, alloc: Global) -> io::Result<()> {
    let Ok(mut text) = long_text(alloc, LONG) else {
        return println!(rt; "no memory");
    };
    time_check(rt, alloc, "legal", text.as_slice())?;
    time_bytes(rt, text.as_slice())?;
    let length = text.len();
    if length >= 2 {
        text[length - 2] = b'x';
    }
    time_check(rt, alloc, "wrong at its end", text.as_slice())
}

// Checks a text, and says what was answered, in what time.
fn time_check<R: Clock + Print>(rt: &R, alloc: Global, name: &str, text: &[u8]) -> io::Result<()> {
    let start = Instant::now(rt)?;
    let found = answer(alloc, 1, text);
    let passed = start.elapsed(rt)?.as_micros();
    let rate = (text.len() as u128).saturating_mul(1_000_000) / passed.max(1);
    println!(rt;
        "{name}: {} bytes in {passed} us, {rate} bytes a second: {found:?}",
        text.len()
    )
}

// Goes over the bytes of a text once.
fn time_bytes<R: Clock + Print>(rt: &R, text: &[u8]) -> io::Result<()> {
    let start = Instant::now(rt)?;
    let mut ends = 0u64;
    for byte in text {
        if *byte == b'\n' {
            ends = ends.wrapping_add(1);
        }
    }
    let passed = start.elapsed(rt)?.as_micros();
    println!(rt; "control: its {ends} ends of lines counted in {passed} us")
}

// Checks a text of the greatest length that is checked.
fn measure_longest<R: Clock + Print>(rt: &R, alloc: Global) -> io::Result<()> {
    let Ok(text) = longest_text(alloc) else {
        return println!(rt; "no memory");
    };
    time_check(rt, alloc, "longest", text.as_slice())
}

// Draws histories, and says of how many the check and the second reader answered the same.
fn compare<R: Print>(rt: &R, alloc: Global) -> io::Result<()> {
    let Ok(found) = drawn(alloc, HISTORIES) else {
        return println!(rt; "no memory");
    };
    println!(rt;
        "{} histories, {} calls: {} legal, {} changed in one byte, of which {} are wrong; {} answers differ",
        HISTORIES, found.calls, found.legal, found.changed, found.wrong, found.differ
    )
}
