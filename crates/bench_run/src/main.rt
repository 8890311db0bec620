//! How many calls and fsyncs a second a run makes on a disk in memory, how many device calls and syncs they take, and what an fsync of one
//! renamed row takes in a small and in a large directory. `bench_run measure` measures it; without the word the program says so. It is in no test.
#![tactic(auto)]

mod loads;
mod renames;
mod runs;

use loads::{Load, begun};
use renames::fsyncs_of;
use runs::measured;
use std::time::Instant;
use std::{env, io};

fn main(rt: HostRuntime) -> io::Result<()> {
    let alloc = rt.alloc();
    let asked = match env::args(&rt) {
        Ok(args) => match args.collect::<Vec<String>>(alloc) {
            Ok(words) => is_measure(&words),
            Err(_) => false,
        },
        Err(_) => false,
    };
    if !asked {
        println!(rt; "bench_run measure: calls, fsyncs and device calls of three runs")?;
        return Ok(());
    }
    for load in [Load::MailSpool, Load::Directories, Load::Made] {
        let name = load.name();
        let items = load.items();
        let Ok((script, disk)) = begun(&rt, alloc, load) else {
            println!(rt; "{name}: no memory")?;
            return Ok(());
        };
        let start = Instant::now(&rt)?;
        let found = measured(&rt, alloc, load.words(), script, disk);
        let passed = start.elapsed(&rt)?.as_micros();
        let Ok(figures) = found else {
            println!(rt; "{name}: no memory")?;
            return Ok(());
        };
        println!(rt; "{name}, {items} items, all done: {}", figures.done)?;
        println!(rt;
            "  {} calls in {passed} us, {} a second",
            figures.calls,
            a_second(figures.calls, passed)
        )?;
        println!(rt;
            "  {} fsyncs, {} of them ok, {} a second",
            figures.fsyncs,
            figures.acknowledged,
            a_second(figures.fsyncs, passed)
        )?;
        println!(rt;
            "  {} device calls, {} in 100 items; {} syncs, {} in 100 items",
            figures.device_calls,
            in_hundred(figures.device_calls, items),
            figures.syncs,
            in_hundred(figures.syncs, items)
        )?;
        println!(rt;
            "  {} bytes written, {} an item",
            figures.written,
            figures.written / items.max(1)
        )?;
    }
    for rows in [100, 32_767] {
        let Some(found) = fsyncs_of(&rt, alloc, rows)? else {
            println!(rt; "renames: no memory")?;
            return Ok(());
        };
        println!(rt;
            "one rename in {rows} rows, all done: {}: an fsync in {} ns, {} device calls",
            found.done, found.fsync, found.device_calls
        )?;
    }
    Ok(())
}

// Whether the one word is `measure`.
fn is_measure(words: &[String]) -> bool {
    words.len() == 2 && words[1].as_str() == "measure"
}

// How many a second, where so many took so many microseconds.
fn a_second(count: u64, micros: u128) -> u128 {
    u128::from(count).saturating_mul(1_000_000) / micros.max(1)
}

// How many in a hundred items, where so many items took so many.
fn in_hundred(count: u64, items: u64) -> u64 {
    count.saturating_mul(100) / items.max(1)
}
