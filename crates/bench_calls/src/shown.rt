// What threads did in each place, in words.
use crate::cases::{Case, Place, THREADS, Tally, median};
use crate::loads::Load;
use crate::runs::measured;
use std::alloc::Global;
use std::io;
use std::rt::Clock;
use std::sync::Wait;
use std::thread::Threads;

// How often each place is measured, the places by turns.
const TIMES: usize = 5;

// What threads did each time.
#[derive(Drop)]
struct Tallies {
    apart: Vec<Tally>,
    own_tables: Vec<Tally>,
    together: Vec<Tally>,
    alone: Vec<Tally>,
}

impl Tallies {
    // None yet.
    fn new(alloc: Global) -> Self {
        Tallies {
            apart: Vec::new(alloc),
            own_tables: Vec::new(alloc),
            together: Vec::new(alloc),
            alone: Vec::new(alloc),
        }
    }
}

// When the names are made.
fn when(made: bool) -> &'static str {
    if made {
        "before the clock"
    } else {
        "inside the clock"
    }
}

// What threads do once in a place.
fn once<R: Threads + Wait + Sync + Clock>(
    rt: &R,
    alloc: Global,
    load: Load,
    made: bool,
    place: Place,
) -> Option<Tally> {
    let case = Case {
        load,
        place,
        made,
        rows: load.rows(),
        rounds: load.rounds(place.together()),
        tables: load.tables(),
    };
    measured(rt, alloc, case)
}

// What threads do in each place, by turns. None, where there is no memory for it.
fn by_turns<R: Threads + Wait + Sync + Clock>(
    rt: &R,
    alloc: Global,
    load: Load,
    made: bool,
) -> Option<Tallies> {
    let mut all = Tallies::new(alloc);
    for _ in 0..TIMES {
        let apart = once(rt, alloc, load, made, Place::Apart)?;
        all.apart.push(apart).ok()?;
        let own_tables = once(rt, alloc, load, made, Place::OwnTables)?;
        all.own_tables.push(own_tables).ok()?;
        let together = once(rt, alloc, load, made, Place::Together)?;
        all.together.push(together).ok()?;
        let alone = once(rt, alloc, load, made, Place::Alone)?;
        all.alone.push(alone).ok()?;
    }
    Some(all)
}

// Says the sum of the rates of all threads in a place, and the own rate of each.
fn show_rates<R: Print>(rt: &R, place: Place, tally: &Tally) -> io::Result<()> {
    print!(rt; "{} {} (", place.name(), tally.rates())?;
    for thread in 0..place.threads() {
        if thread > 0 {
            print!(rt; " ")?;
        }
        print!(rt; "{}", tally.rate(thread))?;
    }
    print!(rt; ")")
}

// Says the rates in two places, and what part the first has of the second, in hundredths.
fn show_pair<R: Print>(
    rt: &R,
    places: (Place, Place),
    tallies: (&[Tally], &[Tally]),
) -> io::Result<()> {
    let first = median(tallies.0);
    let second = median(tallies.1);
    print!(rt; "  ")?;
    show_rates(rt, places.0, &first)?;
    print!(rt; ", ")?;
    show_rates(rt, places.1, &second)?;
    let part = first.rates().saturating_mul(100) / second.rates().max(1);
    println!(rt; ": {}.{}{}", part / 100, part / 10 % 10, part % 10)
}

/// Measures what threads do in each place, and says it beside its control, in thousands of calls a second.
pub(crate) fn show_measured<R: Threads + Wait + Sync + Clock + Print>(
    rt: &R,
    alloc: Global,
    load: Load,
    made: bool,
) -> io::Result<()> {
    println!(rt; "{}, names made {}:", load.name(), when(made))?;
    let Some(all) = by_turns(rt, alloc, load, made) else {
        return println!(rt; "  no memory");
    };
    show_pair(
        rt,
        (Place::Apart, Place::OwnTables),
        (&all.apart, &all.own_tables),
    )?;
    show_pair(
        rt,
        (Place::Together, Place::Alone),
        (&all.together, &all.alone),
    )
}

/// Says how many of 100 calls of each thread are done in each place.
pub(crate) fn show_done<R: Threads + Wait + Sync + Clock + Print>(
    rt: &R,
    alloc: Global,
    load: Load,
    made: bool,
) -> io::Result<()> {
    for place in [
        Place::Apart,
        Place::OwnTables,
        Place::Together,
        Place::Alone,
    ] {
        let case = Case {
            load,
            place,
            made,
            rows: 64,
            rounds: 100,
            tables: 1,
        };
        print!(rt;
            "{}, names made {}, {}: ",
            load.name(),
            when(made),
            place.name()
        )?;
        match measured(rt, alloc, case) {
            Some(tally) => println!(rt; "{} done", tally.done())?,
            None => println!(rt; "no memory")?,
        }
    }
    Ok(())
}
