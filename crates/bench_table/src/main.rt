//! How often a second cores hold a cell of the table and let go, each a cell of its own or all the same one. `bench_table measure` measures
//! it; without the word the program says so. It is in no test.
#![tactic(auto)]

mod rounds;

use rounds::hold_all;
use std::time::Instant;
use std::{env, io};

// How often each core holds.
const ROUNDS: u32 = 2_000_000;

fn main(rt: HostRuntime) -> io::Result<()> {
    let asked = match env::args(&rt) {
        Ok(args) => match args.collect::<Vec<String>>(rt.alloc()) {
            Ok(words) => is_measure(&words),
            Err(_) => false,
        },
        Err(_) => false,
    };
    if !asked {
        println!(rt; "bench_table measure: holds a second")?;
        return Ok(());
    }
    for cores in [1u8, 2, 4] {
        for apart in [true, false] {
            let start = Instant::now(&rt)?;
            let held = hold_all(&rt, rt.alloc(), cores, apart, ROUNDS).is_ok();
            let passed = start.elapsed(&rt)?.as_millis();
            let total = ROUNDS as u64 * cores as u64;
            let cells = if apart { "own cells" } else { "one cell" };
            println!(rt; "{cores} cores, {cells}: {total} holds in {passed} ms, all made: {held}")?;
        }
    }
    Ok(())
}

// Whether the one word is `measure`.
fn is_measure(words: &[String]) -> bool {
    words.len() == 2 && words[1].as_str() == "measure"
}
